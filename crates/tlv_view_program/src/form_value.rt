//! The value of `--as`, read from its text.
ghost use Rattle.std.specs.Prelude.{◌≡◌};
ghost use Rattle.tlv_run.specs.BorrowedText.{text_in};
ghost use Rattle.tlv_view_program.specs.FormValue.{form_value};

use crate::request::InputForm;
use tlv_text::Form;

/// The form that the text names; `ber`, `der` and `cer` mean octets too. Without a text the octets of the input decide.
pub(crate) fn form_value(text: Option<&str>) -> Option<InputForm>
    ensures { result ≡ form_value (text_in text.entry) }
{
    let Some(text) = text else {
        return Some(InputForm::Any);
    };
    match text {
        "octets" | "ber" | "der" | "cer" => Some(InputForm::Octets),
        "pem" => Some(InputForm::Text(Form::Pem)),
        "dump" => Some(InputForm::Text(Form::Dump)),
        "hex" => Some(InputForm::Text(Form::Hex)),
        "numbers" => Some(InputForm::Text(Form::Numbers)),
        "base64" => Some(InputForm::Text(Form::Base64)),
        "runs" => Some(InputForm::Text(Form::Runs)),
        _ => None,
    }
}
