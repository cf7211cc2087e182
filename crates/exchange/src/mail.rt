// The mail: to whom there is something to say, letters that are sent and letters that come, and whether all have passed an hour.
ghost use Rattle.sums.specs.Pages.{page_length, numbers_fit};
ghost use Rattle.std.specs.Prelude.{◌≡◌, ◌<◌, ◌≤◌, ◌++◌, true, length, drop, nat_lt};
ghost use Rattle.protocol.specs.GoingOn.{may_go_on};
ghost use Rattle.protocol.specs.Limits.{crew};
ghost use Rattle.protocol.specs.Memory.{passed_of};
ghost use Rattle.protocol.specs.Reader.{is_fresh};
ghost use Rattle.protocol.specs.Searches.{find, all_below};
ghost use Rattle.protocol.specs.Mail.{next_due};
ghost use Rattle.gauge.specs.Answers.{Absorbed};
ghost use Rattle.gauge.specs.Deeds.{Wrote};
ghost use Rattle.gauge.specs.Memory.{page_sums_in, page_counts_in};
ghost use Rattle.gauge.specs.Views.{stage_in, memory_of};
ghost use Rattle.exchange.specs.Letters.{letter_bytes, longest};
ghost use Rattle.exchange.specs.Mail.{letter_sent, PageBeside, numbers_beside_fit, with_page, with_word, with_head, with_letter};

use crate::read::read_head;
use crate::statement::{Head, Statement};
use crate::words::{SAYS_BEGUN, SAYS_ENDED, SAYS_WHOLE, own, passed};
use crate::write::write_letter;
use gauge::memory::{
    COUNTS, CREW, CURSOR_HOUR, DUE, HOUR, NO_NEXT, PAGE, PASSED, POS, STAGE, SUMS, WOKE, WORD,
    WORD_COUNTS, WORD_HOUR, WORD_NEXT, WORD_SUMS,
};
use gauge::{Act, Buffer, Garbled, Memory};
use sums::pages::decode_page;

// Whether nothing of the row was read yet.
fn is_fresh(memory: &Memory) -> bool
    ensures { result ≡ is_fresh (memory_of memory.now).reader }
{
    memory[STAGE] == 0 && memory[POS] == 0
}

fn first_due(memory: &Memory) -> Option<usize>
    ensures { result ≡ find (memory_of memory.now).mail.due crew }
{
    for machine in 0..CREW {
        let due = memory[DUE + machine] != 0;
        if due {
            return Some(machine);
        }
    }
    None
}

// The first machine that there is something to say to; none as long as nothing of the row was read.
pub fn next_due(memory: &Memory) -> Option<usize>
    ensures { result ≡ next_due (memory_of memory.now) }
{
    if is_fresh(memory) {
        return None;
    }
    first_due(memory)
}

// Whether the hour at hand is whole and all have passed it.
pub fn may_go_on(memory: &Memory) -> bool
    ensures { result ≡ may_go_on (memory_of memory.now) (stage_in memory.now) }
{
    memory[STAGE] == 1 && all_passed(memory, memory[HOUR])
}

fn all_passed(memory: &Memory, hour: u64) -> bool
    ensures { result ≡ all_below (λ i. nat_lt hour (passed_of (memory_of memory.now) i)) crew }
{
    for machine in 0..CREW {
        let past = hour < passed(memory, machine);
        if !past {
            return false;
        }
    }
    true
}

// Sends a machine what there is to say to it: what the reader says, with its page for that machine, and how far this one has told its places.
pub fn send(memory: &mut Memory, to: usize, out: &mut Buffer) -> Act
    requires { to < crew }
    ensures { Wrote (letter_sent memory.old to) result memory.new out.old out.new }
{
    let head = Head {
        woke: memory[WOKE + to] != 0,
        passed: memory[CURSOR_HOUR],
        statement: own(memory),
    };
    let written = write_with_page(memory, head, to, out);
    memory[DUE + to] = 0;
    memory[WOKE + to] = 0;
    Act::Sends(to as u8, written as u16)
}

// Writes what is said, with the reader's page for the machine.
fn write_with_page(memory: &Memory, head: Head, to: usize, out: &mut Buffer) -> usize
    requires { to < crew }
    ensures length { result ≡ length (letter_bytes head (page_sums_in memory.now to) (page_counts_in memory.now to)) }
    ensures bytes { out.new ≡ letter_bytes head (page_sums_in memory.now to) (page_counts_in memory.now to) ++ drop result out.old }
    ensures within { result ≤ longest }
{
    let page = PAGE * to;
    let sums = &memory[SUMS + page..SUMS + page + PAGE];
    let counts = &memory[COUNTS + page..COUNTS + page + PAGE];
    write_letter(head, sums, counts, out)
}

// A letter from a machine is what that machine said last; if it woke, there is something to say to it.
pub fn hear(memory: &mut Memory, from: u64, bytes: &[u8]) -> Result<(), Garbled>
    ensures { Absorbed (with_letter memory.old from bytes.now) memory.old result memory.new }
{
    if from >= CREW as u64 {
        return Err(Garbled);
    }
    let Ok((head, page)) = read_head(bytes) else {
        return Err(Garbled);
    };
    take_head(memory, from as usize, head, page);
    Ok(())
}

fn take_head(memory: &mut Memory, from: usize, head: Head, page: &[u8])
    requires from { from < crew }
    requires page { PageBeside head.statement page.now }
    ensures memory { memory.new ≡ with_head memory.old from head page.now }
    ensures fits { numbers_beside_fit head.statement page.now ≡ true }
{
    take_word(memory, from, head.statement, page);
    memory[PASSED + from] = head.passed;
    if head.woke {
        memory[DUE + from] = 1;
    }
}

fn take_word(memory: &mut Memory, from: usize, statement: Statement, page: &[u8])
    requires from { from < crew }
    requires page { PageBeside statement page.now }
    ensures memory { memory.new ≡ with_word memory.old from statement page.now }
    ensures fits { numbers_beside_fit statement page.now ≡ true }
{
    match statement {
        Statement::Begun { hour } => {
            memory[WORD + from] = SAYS_BEGUN;
            memory[WORD_HOUR + from] = hour;
        }
        Statement::Whole { hour, next } => {
            memory[WORD + from] = SAYS_WHOLE;
            memory[WORD_HOUR + from] = hour;
            memory[WORD_NEXT + from] = next.unwrap_or(NO_NEXT);
            take_page(memory, from, page);
        }
        Statement::Ended => memory[WORD + from] = SAYS_ENDED,
    }
}

// The page of a statement goes straight into the memory.
fn take_page(memory: &mut Memory, from: usize, page: &[u8])
    requires from { from < crew }
    requires page { length page.now ≡ page_length }
    ensures memory { memory.new ≡ with_page memory.old from page.now }
    ensures fits { numbers_fit page.now ≡ true }
{
    let at = PAGE * from;
    let (front, counts) = memory.split_at_mut(WORD_COUNTS);
    let sums = &mut front[WORD_SUMS + at..WORD_SUMS + at + PAGE];
    decode_page(page, sums, &mut counts[at..at + PAGE]).unwrap();
}
