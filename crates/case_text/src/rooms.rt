// What the rooms hold, word by word.
ghost use Rattle.std.specs.Prelude.{◌≡◌, [], ℕ, ◌<◌, length, get_or};
ghost use Rattle.case_text.specs.Rooms.{mark_of, is_marked, has_only, is_left};

// What stands at place `i` of a room before a call: another number at each place, and never 0.
#[tactic(auto, unfolding(crate::specs::Rooms::mark_of))]
fn mark_of(i: usize) -> u64
    ensures { result ≡ mark_of i }
{
    (i as u64) ^ 6148914691236517205
}

pub fn mark(room: &mut [u64])
    ensures { (length room.new ≡ length room.old) × ((j : ℕ) → j < length room.old → get_or room.new j 0 ≡ mark_of j) }
{
    for (i, word) in room.iter_mut().enumerate() {
        *word = mark_of(i);
    }
}

// Whether every word is as it was before the call.
pub fn is_marked(room: &[u64]) -> bool
    ensures { result ≡ is_marked room.now }
{
    for (i, found) in room.iter().enumerate() {
        if *found != mark_of(i) {
            return false;
        }
    }
    true
}

// The word at place `at`, and 0 past the end.
fn word(words: &[u64], at: usize) -> u64
    ensures { result ≡ get_or words.now at 0 }
{
    words.get(at).copied().unwrap_or(0)
}

// Whether the room holds `words`, and zeros from there to its end.
pub fn has_only(room: &[u64], words: &[u64]) -> bool
    ensures { result ≡ has_only words.now room.now }
{
    if room.len() < words.len() {
        return false;
    }
    for (i, found) in room.iter().enumerate() {
        if *found != word(words, i) {
            return false;
        }
    }
    true
}

// Whether a room is as a call leaves it that answers `answer`: `words` and zeros behind them, or after a refusal what stood there.
pub fn is_left(answer: u64, room: &[u64], words: &[u64]) -> bool
    ensures { result ≡ is_left answer words.now room.now }
{
    if answer == 0 {
        return has_only(room, words);
    }
    is_marked(room)
}

// The first `n` places of a room, and none where it has fewer: a line that asks for more is compared in no room at all.
pub fn first<'a, T>(room: &'a mut [T], n: u64) -> &'a mut [T] {
    let end = n as usize;
    if room.len() < end {
        return &mut room[0..0];
    }
    &mut room[0..end]
}

// Whether a working room is as a call leaves it that answers `answer`: zero, or after a refusal as it was.
pub fn is_cleared(answer: u64, room: &[u64]) -> bool
    ensures { result ≡ is_left answer [] room.now }
{
    is_left(answer, room, &[])
}
