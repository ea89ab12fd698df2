//! Which output reports each refusal of the cores.

ghost use Rattle.std.specs.Prelude.{◌≡◌};
ghost use Rattle.world.specs.Outputs.{of_change, of_look, of_commit, of_open, of_ask, of_got};
ghost use Rattle.world.specs.Inner.Naming.{of_changed, of_dump};

use dispatcher::{AskFault, DumpFault, Got, OpenFault};
use mvcc::TxFault;
use primary::CommitFault;
use rows::Value;
use script::Output;

/// The output for a call that changes a transaction.
pub fn change_output(changed: Result<(), TxFault>) -> Output
    ensures { result ≡ of_changed changed }
{
    match changed {
        Ok(()) => Output::Accepted,
        Err(fault) => refused_output(fault),
    }
}

/// The output for a refused call of a transaction.
fn refused_output(fault: TxFault) -> Output
    ensures { result ≡ of_change fault }
{
    match fault {
        TxFault::Exists => Output::Exists,
        TxFault::Missing => Output::Missing,
        TxFault::Unfit => Output::Unfit,
        TxFault::TooManyEntries => Output::TooManyEntries,
        TxFault::Memory => Output::Memory,
    }
}

/// The output for a look at a column.
pub fn look_output(looked: Result<Value, TxFault>) -> Output
    ensures { result ≡ of_look looked }
{
    match looked {
        Ok(value) => Output::Value(value),
        Err(fault) => refused_output(fault),
    }
}

/// The output for a refused commit.
pub fn commit_output(fault: CommitFault) -> Output
    ensures { result ≡ of_commit fault }
{
    match fault {
        CommitFault::Conflict(number) => Output::Conflict(number),
        CommitFault::ReadOnly => Output::ReadOnly,
        CommitFault::Failed => Output::Failed,
        CommitFault::NumbersUsedUp => Output::NumbersUsedUp,
        CommitFault::Memory => Output::Memory,
        CommitFault::Foreign => Output::Foreign,
    }
}

/// The output for a refused query.
pub fn open_output(fault: OpenFault) -> Output
    ensures { result ≡ of_open fault }
{
    match fault {
        OpenFault::BatchFull => Output::BatchFull,
        OpenFault::BadPlan(fault) => Output::BadPlan(fault),
        OpenFault::Broken => Output::Broken,
        OpenFault::Memory => Output::Memory,
    }
}

/// The output for a refused ask or renewal.
pub fn ask_output(fault: AskFault) -> Output
    ensures { result ≡ of_ask fault }
{
    match fault {
        AskFault::Busy => Output::Busy,
        AskFault::Empty => Output::Empty,
        AskFault::Broken => Output::Broken,
        AskFault::NoHead => Output::NoHead,
    }
}

/// The output for a refused dump.
pub fn dump_output(fault: DumpFault) -> Output
    ensures { result ≡ of_dump fault }
{
    match fault {
        DumpFault::Broken => Output::Broken,
        DumpFault::Memory => Output::Memory,
    }
}

/// The output for what a replica made of bytes.
pub fn got_output(got: Got) -> Output
    ensures { result ≡ of_got got }
{
    match got {
        Got::Stored => Output::Stored,
        Got::Repeat => Output::Repeat,
        Got::Ahead => Output::Ahead,
        Got::Head(version) => Output::Head(version),
        Got::Ignored => Output::Ignored,
        Got::Memory => Output::Memory,
        Got::Broken => Output::Broken,
    }
}
