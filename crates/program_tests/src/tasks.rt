//! Tests of what the cabinet tells on standard error, and of the status that it ends with.
use anyhow::anyhow;
use cabinet_tasks::arguments::{finish, finish_task};
use cabinet_tasks::ending::Ending;
use cabinet_tasks::failure::Failure;
use cabinet_tasks::progress::Progress;
use journal::mistake::Mistake;
use journal::statement::Expected;
use std::alloc::Global;
use std::cell::{Cell, RefCell};
use std::fmt::Display;
use std::io;
use std::io::{Eprint, Write};
use std::process::{Abort, ExitCode};
use std::time::{Clock, Duration};

// A clock that a test sets, and a standard error that keeps what is told on it.
#[derive(Drop)]
struct FakeRuntime {
    now: Cell<Duration>,
    errors: RefCell<Vec<u8>>,
}

impl FakeRuntime {
    fn new(heap: Global) -> FakeRuntime {
        FakeRuntime {
            now: Cell::new(Duration::from_secs(100)),
            errors: RefCell::new(Vec::new(heap)),
        }
    }

    fn into_errors(self) -> Vec<u8> {
        self.errors.into_inner()
    }
}

impl Clock for FakeRuntime {
    fn monotonic(&self) -> io::Result<Duration> {
        Ok(self.now.get())
    }

    fn since_1970(&self) -> io::Result<Duration> {
        Ok(self.now.get())
    }
}

impl Eprint for FakeRuntime {
    fn eprint<D: Display + Drop>(&self, value: D) -> io::Result<()> {
        match self.errors.try_borrow_mut() {
            Ok(mut errors) => write!(errors, "{value}"),
            Err(_) => Err(io::Error::from(io::ErrorKind::Other)),
        }
    }

    fn eprintln<D: Display + Drop>(&self, value: D) -> io::Result<()> {
        self.eprint(value)?;
        self.eprint("\n")
    }
}

// A task that ends so has this status, and this is told of it.
fn task_ends(
    rt: &impl Abort,
    runtime: FakeRuntime,
    end: Result<Ending, Failure>,
    status: ExitCode,
    errors: &[u8],
) -> anyhow::Result<()> {
    assert_eq!(rt; finish_task(&runtime, end)?, status);
    assert_eq!(rt; runtime.into_errors().as_slice(), errors);
    Ok(())
}

// Of a task that was done nothing is told, nor of a refusal, which was printed; a mistake is told once and whole. Where
// memory or the program's own output failed, nothing is told here: the error is handed on.
#[test]
fn endings_of_tasks(rt: HostRuntime) -> anyhow::Result<()> {
    let heap = rt.alloc();
    let (done, refused) = (Ok(Ending::Done), Ok(Ending::Refused));
    task_ends(&rt, FakeRuntime::new(heap), done, ExitCode::SUCCESS, b"")?;
    task_ends(&rt, FakeRuntime::new(heap), refused, ExitCode::FAILURE, b"")?;
    let mistake = Failure::told(&"journal line 3: expected an account, in digits", heap);
    let line = b"journal line 3: expected an account, in digits\n";
    task_ends(
        &rt,
        FakeRuntime::new(heap),
        Err(mistake),
        ExitCode::FAILURE,
        line,
    )?;
    let statement = Failure::told(
        &Mistake {
            line: 7,
            wanted: Expected::Statement,
        },
        heap,
    );
    let line =
        b"journal line 7: expected a statement: method, book, open, rates, line, request, enrol, reading, bill, final, disburse, lapse or close\n";
    task_ends(
        &rt,
        FakeRuntime::new(heap),
        Err(statement),
        ExitCode::FAILURE,
        line,
    )?;
    let cut = Failure::Cut(anyhow!("journal line 3: expected an accou..."));
    let line = b"journal line 3: expected an accou...\n";
    task_ends(
        &rt,
        FakeRuntime::new(heap),
        Err(cut),
        ExitCode::FAILURE,
        line,
    )?;
    let runtime = FakeRuntime::new(heap);
    let failed = Err(Failure::Failed(anyhow!("the output is full")));
    assert!(rt; finish_task(&runtime, failed).is_err());
    assert_eq!(rt; runtime.into_errors().as_slice(), b"".as_slice());
    Ok(())
}

// A task whose error is cut to 120 bytes has this status where it ends so, and this is told of it.
fn ends(
    rt: &impl Abort,
    runtime: FakeRuntime,
    end: anyhow::Result<Ending>,
    status: ExitCode,
    errors: &[u8],
) -> anyhow::Result<()> {
    assert_eq!(rt; finish(&runtime, end)?, status);
    assert_eq!(rt; runtime.into_errors().as_slice(), errors);
    Ok(())
}

// Of a task that was done nothing is told, nor of a refusal, which was printed; a mistake is told once.
#[test]
fn endings(rt: HostRuntime) -> anyhow::Result<()> {
    let heap = rt.alloc();
    let (done, refused) = (Ok(Ending::Done), Ok(Ending::Refused));
    ends(&rt, FakeRuntime::new(heap), done, ExitCode::SUCCESS, b"")?;
    ends(&rt, FakeRuntime::new(heap), refused, ExitCode::FAILURE, b"")?;
    let mistake = anyhow!("journal line 3: expected an account, in digits");
    let line = b"journal line 3: expected an account, in digits\n";
    ends(
        &rt,
        FakeRuntime::new(heap),
        Err(mistake),
        ExitCode::FAILURE,
        line,
    )
}

// From 100 seconds on: nothing within the first second, and one line in each later one in which there is something to
// tell.
#[test]
fn progress(rt: HostRuntime) -> anyhow::Result<()> {
    let runtime = FakeRuntime::new(rt.alloc());
    let mut progress = Progress::start(&runtime)?;
    for (now, count) in [
        (100_000, 1),
        (100_999, 2),
        (101_000, 3),
        (101_999, 4),
        (102_000, 5),
        (102_001, 6),
        (105_500, 7),
        (105_999, 8),
        (106_000, 9),
    ] {
        runtime.now.set(Duration::from_millis(now));
        progress.tell(count, "lines are read")?;
    }
    let lines =
        "cabinet: 3 lines are read\ncabinet: 5 lines are read\ncabinet: 7 lines are read\ncabinet: 9 lines are read\n";
    assert_eq!(rt; runtime.into_errors().as_slice(), lines.as_bytes());
    Ok(())
}
