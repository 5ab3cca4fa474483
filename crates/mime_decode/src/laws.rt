//! Laws about the definitions alone.
ghost use Rattle.std.specs.Prelude.{◌≤◌, ◌*◌, ℕ, List, length};
ghost use Rattle.octets.specs.Limits.{max_depth};
ghost use Rattle.mime_params.specs.declared.encoding.TransferEncoding.{TransferEncoding};
ghost use Rattle.mime_decode.specs.Content.{content_of};
ghost use Rattle.mime_decode.specs.Mail.{IsMail, IsReadable, mail_of};
ghost use Rattle.mime_decode.specs.Together.{contents_together};

/// In every encoding the content has at most as many bytes as the body.
pub fn content_is_no_longer_than_its_body()
    ensures { (encoding : TransferEncoding) (body : List ℕ) → length (content_of encoding body)
        ≤ length body }
{}

/// Every readable message is a mail, as the record `IsMail` demands.
pub fn what_is_read_is_a_mail()
    ensures { (octets : List ℕ) → IsReadable octets → IsMail (mail_of octets) }
{}

/// The contents of all parts of a message have together at most as many bytes as the message has, counted once for
/// each depth that a part can have.
pub fn contents_fit_once_at_each_depth()
    ensures { (octets : List ℕ) → contents_together (mail_of octets).parts
        ≤ max_depth * length octets }
{}
