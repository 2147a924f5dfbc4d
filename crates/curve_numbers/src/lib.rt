// Numbers in the curve's order: where their parts end, and the choice of a cache that may stand before them.
#![tactic(auto)]

ghost use Rattle.std.specs.Prelude.{◌≡◌};
ghost use Rattle.curve_numbers.specs.Places.{end_of};
ghost use Rattle.curve_numbers.specs.Choices.{chosen_in};

use rules::Start;

// What is chosen of a cache beside its ways: its sets, its revision, and how it is found.
#[derive(Clone, Copy)]
pub struct Choice {
    pub sets: u32,
    pub revision: u32,
    pub start: Start,
}

// Where the part ends whose count stands at place `at`, with `width` numbers for each that it counts; past the end where it is cut short.
#[tactic(auto, unfolding(crate::specs::Places::end_of))]
pub fn end_of(numbers: &[u32], at: usize, width: u8) -> usize
    ensures { result ≡ end_of width numbers.now at }
{
    if numbers.len() <= at {
        return numbers.len() + 1;
    }
    let end = at + 1 + numbers[at] as usize * width as usize;
    if numbers.len() < end {
        return numbers.len() + 1;
    }
    end
}

// The choice that numbers begin with: the set count, the revision and the start. It is none where one of the three is missing, or the start is neither 0 nor 1.
#[tactic(auto, unfolding(crate::specs::Choices::chosen_in, crate::specs::Choices::chooses))]
pub fn choice_in(numbers: &[u32]) -> Option<Choice>
    ensures { result ≡ chosen_in numbers.now }
{
    if numbers.len() < 3 {
        return None;
    }
    let start = Start::try_from(numbers[2]).ok()?;
    Some(Choice {
        sets: numbers[0],
        revision: numbers[1],
        start,
    })
}
