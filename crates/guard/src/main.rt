// The transcript program: standard input to standard output.
#![tactic(auto)]

ghost use Rattle.std.specs.Prelude.{◌≡◌, ◌↔◌, IsTrue};
ghost use Rattle.std.specs.IoError.{error_kind};
ghost use Rattle.transcript.specs.Stream.{standing};
ghost use Rattle.guard.specs.Block.{Behind, beginning, Led};

use entries::Phase;
use ledger::Ledger;
use output::ROW;
use std::io;
use std::io::{ErrorKind, Read, Stdin, Stdout, Write};
use std::process::ExitCode;
use table::layout::WORDS;
use transcript::{Progress, Served};

// The bytes that are read, and those that are written, at once.
const ROOM: usize = 65536;

// More reads than any run uses up.
const READS: u64 = 1 << 46;

// Why not all was read and written: since nobody reads the pipe of the output any more, or for another reason.
#[derive(Clone, Copy)]
enum Stopped {
    Closed,
    Unfinished,
}

// Whether a write failed since nobody reads the pipe any more.
fn is_closed(e: &io::Error) -> bool
    ensures { IsTrue result ↔ (error_kind e.now ≡ ErrorKind.BrokenPipe) }
{
    e.kind() == ErrorKind::BrokenPipe
}

impl From<io::Error> for Stopped {
    fn from(e: io::Error) -> Self {
        if is_closed(&e) {
            return Stopped::Closed;
        }
        Stopped::Unfinished
    }
}

// A transcript between the input and the output.
#[derive(Drop)]
struct Program<'a> {
    stdin: Stdin,
    stdout: Stdout,
    kept: Ledger<'a>,
    progress: Progress,
}

impl Program<'_> {
    // Serves a whole block, and writes what comes of it.
    fn serve_block(&mut self, block: &[u8], out: &mut [u8]) -> Result<(), Stopped>
        ensures { Behind result (standing self.old.progress self.old.kept) block.now (standing self.new.progress self.new.kept) }
    {
        let mut rest = block;
        while !rest.is_empty() {
            let Served { read, written } = self.progress.serve(&mut self.kept, rest, out);
            self.stdout.write_all(&out[..written])?;
            if read == 0 {
                return Err(Stopped::Unfinished);
            }
            rest = &rest[read..];
        }
        Ok(())
    }

    // Reads the input to its end.
    fn serve_all(&mut self) -> Result<(), Stopped>
        requires { standing self.old.progress self.old.kept ≡ beginning }
        ensures { Led result (standing self.new.progress self.new.kept) }
    {
        let mut block = [0; ROOM];
        let mut out = [0; ROOM];
        for _ in 0..READS {
            let Ok(n) = self.stdin.read(&mut block) else {
                return Err(Stopped::Unfinished);
            };
            if n == 0 {
                return Ok(());
            }
            self.serve_block(&block[..n], &mut out)?;
        }
        Err(Stopped::Unfinished)
    }
}

// The header, a row for each line of the input, and what its end does.
fn run(rt: &HostRuntime) -> Result<(), Stopped> {
    let mut stdout = rt.stdout();
    stdout.write_all(&output::header())?;
    let mut table = [0; WORDS];
    let mut juniors = [0; 64];
    let mut permissions = [0; 8];
    let mut clearances = [0; 64];
    let mut labels = [0; 64];
    let mut program = Program {
        stdin: rt.stdin(),
        stdout,
        kept: Ledger {
            phase: Phase::Opening,
            table: &mut table,
            juniors: &mut juniors,
            permissions: &mut permissions,
            clearances: &mut clearances,
            labels: &mut labels,
        },
        progress: Progress::start(),
    };
    program.serve_all()?;
    let mut last = [0; ROW];
    let n = program.progress.conclude(&mut last);
    program.stdout.write_all(&last[..n])?;
    Ok(())
}

// Says on standard error that not all was read and written. The exit status says it of a closed pipe alone: 141, that of a program
// which the signal of a closed pipe ends, for this one is not ended by it.
fn complain(rt: &HostRuntime, stopped: Stopped) -> ExitCode {
    let _ = rt
        .stderr()
        .write_all(b"guard: not all was read and written\n");
    match stopped {
        Stopped::Closed => ExitCode::from(141),
        Stopped::Unfinished => ExitCode::SUCCESS,
    }
}

fn main(rt: HostRuntime) -> ExitCode {
    match run(&rt) {
        Ok(()) => ExitCode::SUCCESS,
        Err(stopped) => complain(&rt, stopped),
    }
}
