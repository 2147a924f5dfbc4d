// What is printed for a graph, which text of two and from numbers of which form, and whether rooms are long enough for it.
#![tactic(auto)]

ghost use Rattle.std.specs.Prelude.{◌≡◌};
ghost use Rattle.printed.specs.Rooms.{long_enough};
ghost use Rattle.printed.specs.Wanted.{wanted_bytes};

// Which text is wanted: the curve, or the curves in cycles.
#[derive(Clone, Copy)]
pub enum Wanted {
    Misses,
    Cycles,
}

// The form of a text's numbers: the curve's alone, or a set count, a revision and a start before them.
#[derive(Clone, Copy)]
pub enum Form {
    Plain,
    Chosen,
}

// The bytes that are surely enough for the text that is wanted.
fn bytes_for(wanted: Wanted) -> usize
    ensures { result ≡ wanted_bytes wanted }
{
    match wanted {
        Wanted::Misses => 262144,
        Wanted::Cycles => 3145728,
    }
}

// Whether rooms of so many words and bytes are long enough.
pub fn has_room(wanted: Wanted, res: usize, work: usize, counts: usize, output: usize) -> bool
    ensures { result ≡ long_enough (wanted_bytes wanted) res work counts output }
{
    if res < 320 {
        return false;
    }
    if work < 25920 {
        return false;
    }
    if counts < 4097 {
        return false;
    }
    bytes_for(wanted) <= output
}
