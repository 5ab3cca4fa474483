// The names of encodings.
ghost use Rattle.std.specs.Prelude.{◌≡◌};
ghost use Rattle.encodings.specs.Names.{encoding_of};

use crate::encoding::Encoding;

impl Encoding {
    /// Returns the encoding with this name, if there is one: `raw`, `base64`, `base64-mime`, `base32`, `base32hex`,
    /// `base16` or `qp`. Case matters.
    pub fn named(name: &str) -> Option<Encoding>
        ensures { result ≡ encoding_of name.now }
    {
        match name {
            "raw" => Some(Encoding::Raw),
            "base64" => Some(Encoding::Base64),
            "base64-mime" => Some(Encoding::Base64Mime),
            "base32" => Some(Encoding::Base32),
            "base32hex" => Some(Encoding::Base32Hex),
            "base16" => Some(Encoding::Base16),
            "qp" => Some(Encoding::Qp),
            _ => None,
        }
    }
}
