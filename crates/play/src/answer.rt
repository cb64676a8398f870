// The line of a turn: `DOMAIN OPERATION: 0`, with the words that the operation answers, or `DOMAIN OPERATION: refusal N`.
use crate::call::Call;
use rules::Answer;
use std::fmt;
use std::fmt::Write;
use text::Text;

// `DOMAIN OPERATION`, as it is called, with the arguments that are given.
fn called(out: &mut Text, domain: u32, call: &Call<'_>) -> fmt::Result {
    write!(out, "{domain} ")?;
    for b in call.name {
        out.byte(*b);
    }
    for argument in call.arguments.iter().flatten() {
        write!(out, " {argument}")?;
    }
    Ok(())
}

// `: 0`, with that many words, or `: refusal N`, and the end of the line.
fn answered(out: &mut Text, count: usize, a: Answer) -> fmt::Result {
    if 0 < a.status {
        return write!(out, ": refusal {}\n", a.status);
    }
    write!(out, ": 0")?;
    let words = [a.w0, a.w1, a.w2, a.w3, a.w4, a.w5];
    for word in words.iter().take(count) {
        write!(out, " {word}")?;
    }
    write!(out, "\n")
}

// The whole line.
pub fn write(out: &mut Text, domain: u32, call: &Call<'_>, answer: Answer) -> fmt::Result {
    called(out, domain, call)?;
    answered(out, call.answered(), answer)
}
