//! What a history is read as, by the numbers of its lines.
use std::alloc::{AllocError, AllocGlobal};
use sup_history_text::{Answer, HistoryFault, read_history, whole_lines};

/// As `[2,3. 5,6?][9,10.]`: each session in brackets by the number of its begin, behind it its answer unasked, and each
/// line that was heard with its answer. An answer has `,N` for each line, and then `.` where its end is there and `?`
/// where it isn't.
pub(crate) fn shape(rt: &impl AllocGlobal, text: &[u8]) -> Result<String, HistoryFault> {
    let lines = whole_lines(rt.alloc(), text)?;
    let sessions = read_history(rt.alloc(), lines.as_slice())?;
    let mut shape = String::new(rt.alloc());
    for session in &sessions {
        let number = session.begin.number;
        write!(shape, "[{number}")?;
        add_answer(&mut shape, &session.unasked)?;
        for exchange in &session.exchanges {
            let number = exchange.heard.number;
            write!(shape, " {number}")?;
            add_answer(&mut shape, &exchange.answer)?;
        }
        shape.push(']')?;
    }
    Ok(shape)
}

fn add_answer(shape: &mut String, answer: &Answer) -> Result<(), AllocError> {
    for line in answer.lines {
        let number = line.number;
        write!(shape, ",{number}")?;
    }
    shape.push(if answer.is_whole() { '.' } else { '?' })
}
