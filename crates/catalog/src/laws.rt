//! Laws about the definitions alone.
ghost use Rattle.std.specs.Prelude.{◌≡◌, ◌≤◌, ℕ, List, All, None, Some, bytes_eq, false, option_map};
ghost use Rattle.std.specs.List.{list_any};
ghost use Rattle.base64.specs.GeneralPurpose.{IsBytes};
ghost use Rattle.header_fields.specs.Fields.{Field, first_value};
ghost use Rattle.mime_decode.specs.Mail.{Mail};
ghost use Rattle.serde_json.specs.Find.{get};
ghost use Rattle.catalog.specs.Fields.{field_names, fields_value};
ghost use Rattle.catalog.specs.Lines.{message_line, part_line};
ghost use Rattle.catalog.specs.Rows.{Row};
ghost use Rattle.catalog.specs.Texts.{octets_in, text_value};
ghost use Rattle.catalog.specs.declared.entry.Place.{Place};

/// The value that a line has for any bytes stands for these bytes.
pub fn texts_are_read_back()
    ensures { (octets : List ℕ) → IsBytes octets → octets_in (text_value octets) ≡ Some octets }
{}

/// No line has a control character, so none has a line break.
pub fn lines_have_no_line_break()
    ensures messages { (row : Row) (mail : Mail) (stored : List Place)
        → All (λ octet. 32 ≤ octet) (message_line row mail stored) }
    ensures parts { (row : Row) (messages : List Place)
        → All (λ octet. 32 ≤ octet) (part_line row messages) }
{}

/// Under each of the eight names the object of fields has the value of the first field with this name, or nothing if
/// there is no such field. Under any other name it has nothing.
pub fn fields_are_the_first_of_their_names()
    ensures named { (fields : List Field) → All (λ name. get name (fields_value fields)
        ≡ option_map text_value (first_value name fields)) field_names }
    ensures others { (fields : List Field) (name : List ℕ)
        → list_any (λ other. bytes_eq name other) field_names ≡ false
        → get name (fields_value fields) ≡ None }
{}
