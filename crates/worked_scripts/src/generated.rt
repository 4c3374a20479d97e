//! Scripts that are too long to stand in a text.
use std::alloc::{AllocError, Global};
use std::io::{self, Write};

/// The script in which each `~` and the byte before it stand for so many of that byte.
pub(crate) fn long(alloc: Global, script: &[u8], count: usize) -> Result<Vec<u8>, AllocError> {
    let mut longer = Vec::new(alloc);
    lengthen(script, count, &mut longer)?;
    Ok(longer)
}

fn lengthen(script: &[u8], count: usize, longer: &mut Vec<u8>) -> Result<(), AllocError> {
    let mut before = b'~';
    for byte in script {
        if *byte == b'~' {
            let filled = longer.len().saturating_add(count.saturating_sub(1));
            longer.resize(filled, before)?;
        } else {
            longer.push(*byte)?;
        }
        before = *byte;
    }
    Ok(())
}

/// The script below the load of a graph of so many tasks, each after the one before it.
pub(crate) fn with_chain(alloc: Global, script: &[u8], count: usize) -> io::Result<Vec<u8>> {
    let mut longer = Vec::new(alloc);
    put_chain(script, count, &mut longer)?;
    Ok(longer)
}

fn put_chain<W: Write>(script: &[u8], count: usize, output: &mut W) -> io::Result<()> {
    output.write_all(
        b"load inline\ndag_id = \"chain\"\nschedule = \"@daily\"\nstart_date = \"2024-01-01\"\n",
    )?;
    for task in 0..count {
        put_task(task, output)?;
    }
    output.write_all(b".\n")?;
    output.write_all(script)
}

fn put_task<W: Write>(task: usize, output: &mut W) -> io::Result<()> {
    write!(
        output,
        "[[task]]\ntask_id = \"t{task}\"\noperator = \"noop\"\n"
    )?;
    if task == 0 {
        return Ok(());
    }
    let before = task - 1;
    writeln!(output, "upstream = [\"t{before}\"]")
}
