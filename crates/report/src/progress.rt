// How far something long is, on standard error.
ghost use Rattle.std.specs.Prelude.{◌≡◌, ◌*◌, ◌-◌, ◌/◌, min, not, MatchOption, OnOk};
ghost use Rattle.std.specs.Io.KnownBytes.{Keeps};

use std::io;
use std::io::{IsTerminal, Write};
use std::time::Instant;

// Nothing is said of what takes no longer, in seconds; then a line is said each second.
const QUIET: u64 = 2;

// How many seconds are left, if what is left goes as fast as what is done; none where nothing is done.
pub fn seconds_left(seconds: u64, done: u64, of: u64) -> Option<u64>
    ensures { MatchOption result (done ≡ 0) (λ left. left ≡ min (seconds * (of - done) / done) 18446744073709551615) }
{
    if done == 0 {
        return None;
    }
    let rest = of.saturating_sub(done);
    let left = u128::from(seconds) * u128::from(rest) / u128::from(done);
    Some(left.min(u128::from(u64::MAX)) as u64)
}

#[derive(Drop)]
pub struct Progress<'a> {
    rt: &'a HostRuntime,
    // Whether anything is said.
    said: bool,
    start: Instant,
    // The second from the start on in which the next line is due.
    due: u64,
    done: u64,
    of: u64,
    what: &'a str,
}

impl<'a> Progress<'a> {
    // It is said where standard error is a terminal, or where it is asked for.
    pub fn new(rt: &'a HostRuntime, asked: bool) -> io::Result<Progress<'a>> {
        Ok(Progress {
            rt,
            said: asked || rt.stderr().is_terminal(),
            start: Instant::now(rt)?,
            due: QUIET,
            done: 0,
            of: 0,
            what: "",
        })
    }

    // Nothing is said, whatever is done.
    pub fn is_silent(&self) -> bool
        ensures { result ≡ not self.now.said }
    {
        !self.said
    }

    // From now on so many of these are done, one after the other.
    pub fn begin(&mut self, of: u64, what: &'a str) -> io::Result<()> {
        self.start = Instant::now(self.rt)?;
        self.due = QUIET;
        self.done = 0;
        self.of = of;
        self.what = what;
        Ok(())
    }

    // One more is done.
    pub fn advance<W: Write>(&mut self, out: &mut W) -> io::Result<()>
        ensures { OnOk result (Keeps (W.contents out.old) (W.contents out.new)) }
    {
        self.done = self.done.saturating_add(1);
        self.say(out)
    }

    // So many of so many of these are done.
    pub fn reach<W: Write>(
        &mut self,
        out: &mut W,
        done: u64,
        of: u64,
        what: &'a str,
    ) -> io::Result<()>
        ensures { OnOk result (Keeps (W.contents out.old) (W.contents out.new)) }
    {
        self.done = done;
        self.of = of;
        self.what = what;
        self.say(out)
    }

    // Says how far it is, where that is due. What was printed is written out before, so that both stand in their order.
    fn say<W: Write>(&mut self, out: &mut W) -> io::Result<()>
        ensures { OnOk result (Keeps (W.contents out.old) (W.contents out.new)) }
    {
        if self.is_silent() {
            return Ok(());
        }
        let seconds = self.start.elapsed(self.rt)?.as_secs();
        if seconds < self.due {
            return Ok(());
        }
        self.due = seconds.saturating_add(1);
        out.flush()?;
        self.print(seconds);
        Ok(())
    }

    // A line that cannot be written is no reason to stop.
    fn print(&self, seconds: u64) {
        let Progress { done, of, what, .. } = *self;
        let _ = match seconds_left(seconds, done, of) {
            Some(left) => {
                eprintln!(self.rt; "{done} of {of} {what}, {seconds} s; about {left} s are left")
            }
            None => eprintln!(self.rt; "{done} of {of} {what}, {seconds} s"),
        };
    }
}
