// The messages that lines ask to deliver.
ghost use Rattle.std.specs.Prelude.{◌<◌, ◌≡◌, ◌≤◌, ◌⊎◌, IfSome, IfNone, Some, length, map, string_bytes, take};
ghost use Rattle.depot_jobs.specs.Inputs.{HasNotReadFile, HasReadFile};
ghost use Rattle.refusals.specs.declared.refusal.Refusal.{Refusal};
ghost use Rattle.depot_batch.specs.Effects.{AreDeliveries, AreLookedUp, IsDelivery};
ghost use Rattle.depot_batch.specs.Private.{IsPassedOver, command_of, lines_of};

use crate::asked::{Asked, asked_by};
use crate::line::{line_words, texts};
use depot_cli::WithReply;
use depot_jobs::{Deposit, Host, Request, read_file_of};
use std::alloc::Global;

/// How many bytes of messages are read for lines that are done together; after that, no further message is read.
const ENOUGH: usize = 16 << 20;

/// A message that a line asks to deliver.
#[derive(Drop)]
pub struct Mail {
    /// The user to whom it is delivered.
    pub user: String,
    /// The message, as it was read.
    pub message: Vec<u8>,
}

/// Reads the messages that these lines ask to deliver: those of all lines, or of the first ones, until they have 16 MiB
/// together. Returns `None` if one of the lines asks for something else, its message can't be read, or memory is
/// refused.
///
/// # Requires
///
/// There is at least one line.
pub fn read_mails<H: Host>(alloc: Global, lines: &[Vec<u8>], host: &mut H) -> Option<Vec<Mail>>
    requires { 0 < length lines.now }
    ensures some { IfSome result (λ mails. 0 < length mails.items) }
    ensures few { IfSome result (λ mails. length mails.items ≤ length lines.now) }
    ensures read { IfSome result (λ mails.
        AreDeliveries (take (length mails.items) (lines_of lines.now))
        (map command_of mails.items) (H.state host.old) (H.state host.new)) }
    ensures given_up { IfNone result (AreLookedUp (lines_of lines.now)
        (H.state host.old) (H.state host.new)) }
{
    let mut mails = Vec::new(alloc);
    let mut octets = 0usize;
    for line in lines {
        if octets >= ENOUGH {
            return Some(mails);
        }
        let mail = read_mail(alloc, line, host)?;
        octets = octets.saturating_add(mail.message.len());
        let Ok(()) = mails.push(mail) else {
            return None;
        };
    }
    Some(mails)
}

// Reads the message that a line asks to deliver.
fn read_mail<H: Host>(alloc: Global, line: &[u8], host: &mut H) -> Option<Mail>
    ensures read { IfSome result (λ mail. IsDelivery line.now (command_of mail)
        (H.state host.old) (H.state host.new)) }
    ensures unread { IfNone result (IsPassedOver line.now (H.state host.old) (H.state host.new)) }
{
    let Ok(words) = line_words(alloc, line) else {
        return None;
    };
    let Ok(texts) = texts(alloc, &words) else {
        return None;
    };
    match asked_by(&texts) {
        Ok(Asked::Reply(WithReply::FromFile(Deposit::Message, user, message))) => {
            mail_for(alloc, user, message, host)
        }
        _ => None,
    }
}

// Reads a message for a user from this file.
fn mail_for<H: Host>(alloc: Global, user: &str, file: &str, host: &mut H) -> Option<Mail>
    ensures user { IfSome result (λ mail. string_bytes mail.user ≡ user.now) }
    ensures read { IfSome result (λ mail. HasReadFile (Some file.now) mail.message.items
        (H.state host.old) (H.state host.new)) }
    ensures unread { IfNone result ((H.state host.new ≡ H.state host.old)
        ⊎ ((refusal : Refusal) × HasNotReadFile refusal (Some file.now)
        (H.state host.old) (H.state host.new))) }
{
    let Ok(name) = String::from_str(alloc, user) else {
        return None;
    };
    let request = Request::FromFile(Deposit::Message, user, file);
    match read_file_of(alloc, request, host) {
        Ok(message) => Some(Mail {
            user: name,
            message,
        }),
        Err(_) => None,
    }
}
