//! Kits, made of operators in boxes.
use graph_file::Operator as Kind;
use operators::{BoxedOperator, Exit, Kit, Noop, Program};
use std::alloc::Global;
use std::io;

/// Writes whether these operators make a kit, or how many are handed back.
pub(crate) fn write_answer(
    rt: &HostRuntime,
    alloc: Global,
    base: &str,
    words: &str,
) -> io::Result<()> {
    let mut boxes: Vec<BoxedOperator> = Vec::new(alloc);
    for word in words.split(' ') {
        match Kind::read(word) {
            Some(Kind::Noop) => boxes.push(Box::new(alloc, Noop::new(alloc))?)?,
            Some(Kind::Exit) => boxes.push(Box::new(alloc, Exit::new(alloc))?)?,
            Some(Kind::Command) => {
                let program = Program::new(*rt, alloc, String::from_str(alloc, base)?, None);
                boxes.push(Box::new(alloc, program)?)?;
            }
            None => {}
        }
    }
    match Kit::new(boxes) {
        Ok(_kit) => rt.print(" a kit"),
        Err(back) => {
            let count = back.len();
            print!(rt; " handed back: {count}")
        }
    }
}
