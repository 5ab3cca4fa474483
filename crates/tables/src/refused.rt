// Refusals, as the command line prints them.
use crate::printed::Printed;
use refusals::Refusal;

/// Adds a refusal, where that is what came of a call.
pub fn unless_refused(outcome: Result<(), Refusal>, answer: &mut Printed) {
    if let Err(refusal) = outcome {
        put_refusal(&refusal, answer);
    }
}

/// Adds a refusal: its number, its name, and its place where it has one.
pub fn put_refusal(refusal: &Refusal, answer: &mut Printed) {
    answer.word("refused");
    answer.number(u64::from(refusal.number()));
    answer.word(refusal.name());
    if let Some(place) = refusal.place() {
        answer.word("at");
        answer.number(place as u64);
    }
}
