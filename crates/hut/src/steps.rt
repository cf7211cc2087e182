// One step of a machine in its hut, on a desk.
ghost use Rattle.std.specs.Prelude.{◌≡◌, ◌≤◌, [], ◌∷◌, length, take, IfOk};
ghost use Rattle.machine.specs.Answers.{as_event as event_of};
ghost use Rattle.machine.specs.Entry.{own};
ghost use Rattle.machine.specs.Run.{machine, wakes, so_many_of, nth_row};
ghost use Rattle.sums.specs.Sums.{each};
ghost use Rattle.hut.specs.Played.{as_event, as_machine, as_pending, as_text, StepDone};

use crate::hut::{Desk, Hut, Pending};
use crate::text::Text;
use machine::{Act, DRAWERS, Event, LETTER, MEMORY};
use std::alloc::{AllocError, Global};

impl<'a> From<&'a Pending> for Event<'a> {
    ghost from_gives = { λ p e. event_of e ≡ as_event p.now };

    fn from(pending: &'a Pending) -> Event<'a> {
        match pending {
            Pending::Wakes(i) => Event::Wakes(*i),
            Pending::Comes(r) => Event::Comes(r.time, r.place, r.value),
            Pending::Later => Event::Later,
            Pending::Ends => Event::Ends,
            Pending::Letter(i, t) => Event::Letter(*i, t.text.as_slice()),
            Pending::Slot(t) => Event::Slot(t.text.as_slice()),
            Pending::Next => Event::Next,
        }
    }
}

// A machine's memory at the start: all 0.
fn memory(heap: Global) -> Result<Vec<u64>, AllocError>
    ensures { IfOk result (λ v. v.items ≡ own.start) }
{
    let cells = vec![in heap; 0; MEMORY]?;
    Ok(cells)
}

fn drawers(heap: Global) -> Result<Vec<Text>, AllocError>
    ensures { IfOk result (λ v. each as_text v.items ≡ so_many_of 256 []) }
{
    let mut drawers = Vec::new(heap);
    for _ in 0..DRAWERS {
        drawers.push(Text::empty(heap))?;
    }
    Ok(drawers)
}

impl Desk {
    pub fn new(heap: Global) -> Result<Desk, AllocError> {
        let memory = memory(heap)?;
        let out = vec![in heap; 0; LETTER]?;
        Ok(Desk { memory, out })
    }

    // The first bytes of what a step left, so many of them, or all.
    pub fn text(&self, heap: Global, len: u64) -> Result<Text, AllocError>
        ensures { IfOk result (λ t. as_text t ≡ take len self.now.out.items) }
    {
        let end = (len as usize).min(self.out.len());
        Text::copied(heap, &self.out[..end])
    }
}

impl Hut {
    // Machine i at the very start.
    pub fn new(heap: Global, i: u64) -> Result<Hut, AllocError>
        ensures { IfOk result (λ h. as_machine h ≡ machine own.start (wakes i ∷ []) 0 0 (so_many_of 256 [])) }
    {
        let drawers = drawers(heap)?;
        Hut::boot(heap, i, drawers, 0)
    }

    // Machine i as it wakes, with these drawers and so much of its row released.
    pub fn boot(heap: Global, i: u64, drawers: Vec<Text>, gone: u64) -> Result<Hut, AllocError>
        ensures { IfOk result (λ h. as_machine h ≡ machine own.start (wakes i ∷ []) gone gone (each as_text drawers.items)) }
    {
        let memory = memory(heap)?;
        Ok(Hut {
            memory,
            pending: Some(Pending::Wakes(i)),
            reads_at: gone,
            gone,
            drawers,
        })
    }

    // What a drawer has; nothing where there is no such drawer.
    pub fn drawer(&self, drawer: u64) -> &[u8]
        ensures text { result.now ≡ nth_row (as_machine self.now).slots drawer }
        ensures few { length result.now ≤ 4096 }
    {
        match self.drawers.get(drawer as usize) {
            Some(text) => text.text.as_slice(),
            None => &[],
        }
    }

    // One step by what the machine is to be told, worked out on the desk; none where it rests.
    pub fn step(&self, desk: &mut Desk) -> Option<Act>
        ensures { StepDone self.now.memory.items (as_pending self.now.pending) result desk.new }
    {
        let Some(pending) = &self.pending else {
            return None;
        };
        let event = Event::from(pending);
        desk.memory.copy_from_slice(self.memory.as_slice());
        let act = machine::step(
            desk.memory.as_mut_slice(),
            event,
            desk.out.as_mut_slice(),
        ).unwrap();
        Some(act)
    }
}
