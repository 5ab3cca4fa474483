// Actions and charges, as the command line prints them.
use crate::printed::Printed;
use bytecode_format::Action;
use sieve_engine::Report;

/// Adds actions, or that there is none.
pub fn put_actions(actions: &[Action], answer: &mut Printed) {
    if actions.is_empty() {
        answer.word("none");
    }
    for action in actions {
        put_action(action, answer);
    }
}

/// Adds an action.
pub fn put_action(action: &Action, answer: &mut Printed) {
    match action {
        Action::Keep => answer.word("keep"),
        Action::File(folder) => {
            answer.word("fileinto");
            answer.text(folder.as_slice());
        }
        Action::Store(folder, part) => {
            answer.word("store");
            answer.text(folder.as_slice());
            answer.number(*part as u64);
        }
    }
}

/// Adds what a run charged, and what it may charge at most.
pub fn put_charge(report: &Report, answer: &mut Printed) {
    answer.word("charged");
    answer.large_number(report.outcome.charged);
    answer.word("of");
    answer.large_number(report.limit);
}
