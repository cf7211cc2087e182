// What happens in a river: calm written out, and strokes put in.
ghost use Rattle.std.specs.Prelude.{◌≡◌, true, IfOk, OnOk};
ghost use Rattle.sums.specs.Sums.{every};
ghost use Rattle.river.specs.Fine.{item_fine};
ghost use Rattle.world.specs.Rounds.{pokes, letters_to, a_round, all_rounds, written_out};
ghost use Rattle.play.specs.Plays.{unrolled, is_plain};
ghost use Rattle.play.specs.Courses.{Grown, StruckSays, acts_fine};
ghost use Rattle.play.specs.declared.course.StrikeError.TheVariants.{Memory};

use machine::MACHINES;
use river::Item;
use std::alloc::{AllocError, AllocFailed, Global};
use thiserror::Error;

// Each machine is poked and works. `add_letters` is another function, since a closure for the two items would need a clause as long as this loop.
fn add_pokes(items: &mut Vec<Item>, acts: u64) -> Result<(), AllocError>
    ensures { OnOk result (Grown items.old.items (pokes acts) items.new.items) }
{
    for i in 0..MACHINES {
        items.push(Item::Poke(i))?;
        items.push(Item::Works(i, acts))?;
    }
    Ok(())
}

// A letter comes to j from each machine, and j works each time.
fn add_letters(items: &mut Vec<Item>, j: u64, acts: u64) -> Result<(), AllocError>
    ensures { OnOk result (Grown items.old.items (letters_to acts j) items.new.items) }
{
    for i in 0..MACHINES {
        items.push(Item::Brings(i, j))?;
        items.push(Item::Works(j, acts))?;
    }
    Ok(())
}

fn add_round(items: &mut Vec<Item>, acts: u64) -> Result<(), AllocError>
    ensures { OnOk result (Grown items.old.items (a_round acts) items.new.items) }
{
    add_pokes(items, acts)?;
    for j in 0..MACHINES {
        add_letters(items, j, acts)?;
    }
    Ok(())
}

// One round of calm, written out.
pub fn round(heap: Global, acts: u64) -> Result<Vec<Item>, AllocError>
    ensures { IfOk result (λ v. unrolled v.items ≡ a_round acts) }
{
    let mut items = Vec::new(heap);
    add_round(&mut items, acts)?;
    Ok(items)
}

fn add_rounds(items: &mut Vec<Item>, rounds: u64, acts: u64) -> Result<(), AllocError>
    ensures { OnOk result (Grown items.old.items (all_rounds rounds acts) items.new.items) }
{
    for _ in 0..rounds {
        add_round(items, acts)?;
    }
    Ok(())
}

// One item more, written out.
fn add_plain(items: &mut Vec<Item>, item: Item) -> Result<(), AllocError>
    ensures { OnOk result (Grown items.old.items (written_out item) items.new.items) }
{
    if let Item::Calm(rounds, acts) = item {
        return add_rounds(items, rounds, acts);
    }
    items.push(item)?;
    Ok(())
}

// The same river with its calm written out, as the pokes, letters and turns of its rounds.
pub fn plain(heap: Global, items: &[Item]) -> Result<Vec<Item>, AllocError>
    ensures same { IfOk result (λ v. unrolled v.items ≡ unrolled items.now) }
    ensures plain { IfOk result (λ v. every is_plain v.items ≡ true) }
    ensures fine { IfOk result (λ v. every item_fine items.now ≡ true → every item_fine v.items ≡ true) }
{
    let mut out = Vec::new(heap);
    for item in items {
        add_plain(&mut out, *item)?;
    }
    Ok(out)
}

#[derive(Clone, Copy, PartialEq, Eq, Debug, Error)]
pub enum StrikeError {
    #[error("no machine works there, so none is struck")]
    NotWorks,
    #[error("there is not enough memory")]
    Memory,
}

// By hand, as a clause names the error that `?` makes.
impl From<AllocError> for StrikeError {
    ghost from_gives = { λ _ r. r ≡ Memory };

    fn from(_e: AllocError) -> StrikeError {
        StrikeError::Memory
    }
}

impl<T: Drop> From<AllocFailed<T>> for StrikeError {
    ghost from_gives = { λ _ r. r ≡ Memory };

    fn from(_e: AllocFailed<T>) -> StrikeError {
        StrikeError::Memory
    }
}

// The river in which the machine that is to work at place k first works so many acts and is struck, for each number of strokes; then it works as it was to.
pub fn struck(
    heap: Global,
    items: &[Item],
    k: usize,
    strokes: &[u64],
) -> Result<Vec<Item>, StrikeError>
    ensures says { StruckSays items.now k strokes.now result }
    ensures fine { IfOk result (λ v. every item_fine items.now ≡ true → every acts_fine strokes.now ≡ true → every item_fine v.items ≡ true) }
{
    if k >= items.len() {
        return Err(StrikeError::NotWorks);
    }
    // The `else` of one pattern over `get` would not know that no machine works there.
    let Item::Works(machine, _) = items[k] else {
        return Err(StrikeError::NotWorks);
    };
    let (before, from) = items.split_at(k);
    let mut out = Vec::from_slice(heap, before)?;
    for acts in strokes {
        out.push(Item::Works(machine, *acts))?;
        out.push(Item::Falls(machine))?;
    }
    out.extend_from_slice(from)?;
    Ok(out)
}
