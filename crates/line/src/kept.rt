//! The line: how many records it holds of the memory that it is lent.
ghost use Rattle.std.specs.Prelude.{◌≡◌, ◌≤◌, length, IfOk, OnErr, OnOk};
ghost use Rattle.std.specs.List.{slice_get};
ghost use Rattle.std.specs.Result.{result_ok, result_err};
ghost use Rattle.line.specs.Order.{behind};
ghost use Rattle.line.specs.Lines.{no_records, records_of, full_refusal, position_refusal, Kept, Added, Taken};

use crate::ranked::Ranked;
use refusals::Refusal;

/// A line of records in order. It holds the first so many records of its memory.
///
/// The memory is the owner's, who lends it at each call: the same slice each time, which only the
/// line writes. A line has as many places as the slice has elements. With another slice a call is
/// safe too, and takes the first of its elements for the records.
// The count stands apart from the slice since a line is lent its memory at each call and keeps none.
#[derive(Clone, Copy, PartialEq, Eq, Debug)]
pub struct Line {
    held: usize,
}

/// How many records at the front are not greater than `item`.
fn place_for<R: Ranked>(records: &[R], item: &R) -> usize
    ensures within { result ≤ length records.now }
    ensures place { result ≡ behind R.Ranked.le item.now records.now }
{
    // A search in halves would count them only where the slice is in order, and `add` takes any.
    records
        .iter()
        .take_while(|standing| standing.at_most(item))
        .count()
}

impl Line {
    /// A line that holds nothing.
    pub fn new() -> Line
        ensures { result ≡ no_records }
    {
        Line { held: 0 }
    }

    /// How many records the line holds.
    pub fn len(&self) -> usize
        ensures { result ≡ self.now.held }
    {
        // on a line of its own, which an edit in must-fail/ changes
        let Line { held } = *self;
        held
    }

    /// The records, in their order.
    pub fn records<'a, R>(&self, places: &'a [R]) -> &'a [R]
        ensures { result.now ≡ records_of self.now places.now }
    {
        // Of a slice that is too short all elements are records.
        &places[..self.held.min(places.len())]
    }

    /// Puts a record behind all that are not greater. Refused where every place is taken.
    pub fn add<R: Ranked>(&mut self, places: &mut [R], item: R) -> Result<(), Refusal>
        ensures refusal { result_err result ≡ full_refusal (records_of self.old places.old) places.old }
        ensures kept { OnErr result (Kept self.old places.old self.new places.new) }
        ensures added { OnOk result (Added R.Ranked.le item self.old places.old self.new places.new) }
    {
        if self.held >= places.len() {
            return Err(Refusal::LineFull);
        }
        let at = place_for(self.records(places), &item);
        places.copy_within(at..self.held, at + 1);
        places[at] = item;
        self.held += 1;
        Ok(())
    }

    /// Takes out the record at a position, 0 for the first, and answers it. Refused past the last.
    pub fn take<R: Ranked>(&mut self, places: &mut [R], at: usize) -> Result<R, Refusal>
        ensures refusal { result_err result ≡ position_refusal (records_of self.old places.old) at }
        ensures kept { OnErr result (Kept self.old places.old self.new places.new) }
        ensures taken { IfOk result (λ x. Taken R.Ranked.le at x self.old places.old self.new places.new) }
    {
        let item = self.read(places, at)?;
        let held = self.records(places).len();
        places.copy_within(at + 1..held, at);
        self.held = held - 1;
        Ok(item)
    }

    /// The record at a position, 0 for the first, which stays. Refused past the last.
    pub fn read<R: Copy>(&self, places: &[R], at: usize) -> Result<R, Refusal>
        ensures refusal { result_err result ≡ position_refusal (records_of self.now places.now) at }
        ensures value { result_ok result ≡ slice_get (records_of self.now places.now) at }
    {
        self.records(places)
            .get(at)
            .copied()
            .ok_or(Refusal::PastEnd)
    }
}
