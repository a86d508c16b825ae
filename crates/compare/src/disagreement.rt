// Shows a case in which the two implementations disagree.
use crate::answer::Answer;
use crate::case::{Bottom, Case};
use std::alloc::Global;
use std::io;

// The text in printable letters, a line each.
fn escaped(alloc: Global, text: &[u8]) -> io::Result<String> {
    let mut shown = String::new(alloc);
    for byte in text {
        match *byte {
            b'\n' => shown.push_str("\\n\n")?,
            b' '..=b'~' => shown.push(char::from(*byte))?,
            byte => write!(shown, "\\x{byte:02x}")?,
        }
    }
    Ok(shown)
}

fn print_bottom(rt: &impl Print, alloc: Global, bottom: &Bottom) -> io::Result<()> {
    match bottom {
        Bottom::Text(text) => {
            let length = text.len();
            let text = escaped(alloc, text.as_slice())?;
            println!(rt; "a text of {length} bytes:\n{text}")
        }
        Bottom::List(records) => {
            println!(rt; "a list:")?;
            for record in records {
                println!(rt; "{record:?}")?;
            }
            Ok(())
        }
        Bottom::Grid {
            columns,
            rows,
            step,
        } => println!(rt; "a grid of {columns} columns, {rows} rows, step {step}"),
    }
}

fn print_answers(rt: &impl Print, answers: &[Answer], first: usize) -> io::Result<()> {
    for (position, answer) in answers.iter().enumerate() {
        let mark = if position == first { ">" } else { " " };
        println!(rt; "{mark} {position} {answer:?}")?;
    }
    Ok(())
}

pub fn print(
    rt: &impl Print,
    alloc: Global,
    case: &Case,
    library: &[Answer],
    rules: &[Answer],
) -> io::Result<()> {
    let agreed = library
        .iter()
        .zip(rules)
        .take_while(|(one, other)| one == other)
        .count();
    print_bottom(rt, alloc, &case.bottom)?;
    println!(rt; "layers, from the lowest up: {:?}", case.rules)?;
    println!(rt; "on top: {:?}", case.top)?;
    println!(rt; "calls: {:?}", case.calls)?;
    println!(rt; "the library answers:")?;
    print_answers(rt, library, agreed)?;
    println!(rt; "by the rules:")?;
    print_answers(rt, rules, agreed)
}
