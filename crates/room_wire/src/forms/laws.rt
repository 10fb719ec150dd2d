//! Laws of commands and their texts.
ghost use Rattle.std.specs.Prelude.{◌≡◌, ◌↔◌, ℕ, true, List, Some};
ghost use Rattle.base64.specs.Engines.{standard};
ghost use Rattle.base64.specs.GeneralPurpose.{encode_of, decoded_of};
ghost use Rattle.room_commands.specs.CommandModel.{CommandModel};
ghost use Rattle.room_commands.specs.Lawful.{IsLawful, AreBytes};
ghost use Rattle.room_wire.specs.Forms.Base64.{base64};
ghost use Rattle.room_wire.specs.Forms.Texts.{command_text};
ghost use Rattle.room_wire.specs.Forms.Commands.{command_of_body};

/// The text of a lawful command is a body that asks it, and asks that its reply be kept.
pub fn command_text_reads_back()
    ensures { (command : CommandModel) → IsLawful command → command_of_body (command_text command)
        ≡ Some (command, true) }
{}

/// Lawful commands with equal texts are equal.
pub fn command_of_text_is_one()
    ensures { (a b : CommandModel) → IsLawful a → IsLawful b → command_text a ≡ command_text b → a ≡ b }
{}

/// Bytes are written as base64 with padding, as RFC 4648, section 4, says; and a text is read as bytes exactly where it
/// is what they are written as.
pub fn base64_is_the_standards()
    ensures written { (bytes : List ℕ) → AreBytes bytes → encode_of standard bytes ≡ base64 bytes }
    ensures read { (text bytes : List ℕ) → AreBytes text → AreBytes bytes →
        (decoded_of standard text ≡ Some bytes) ↔ (text ≡ base64 bytes) }
{}
