// How a refusal is told: by an F row on standard output, and on standard error, where the command ends, by a sentence.
use fault::Fault;
use std::io;
use std::io::Write;
use texts::fault_text;

fn print_row(rt: &(impl Print + AllocGlobal), fault: &Fault) -> anyhow::Result<()> {
    let row = fault_text(rt.alloc(), fault)?;
    io::writer(rt).write_all(row.as_slice())?;
    Ok(())
}

// Hands an answer on; the row of a refusal is printed first.
pub fn or_row<T: Drop>(
    rt: &(impl Print + AllocGlobal),
    answer: Result<T, Fault>,
) -> anyhow::Result<T> {
    if let Err(fault) = &answer {
        print_row(rt, fault)?;
    }
    Ok(answer?)
}
