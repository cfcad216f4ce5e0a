//! The form of a file: the one that the words say, or else the one that its name says.

ghost use Rattle.std.specs.Prelude.{◌≡◌};
ghost use Rattle.at_cli.specs.Values.{form_by_name as form_that_name_says};
ghost use Rattle.at_cli.specs.LineOf.{form_of as form_of_name};

use crate::words::line::Line;
use at_run::Form;

/// The form that a file's name says: WKT where it ends in `.wkt` or begins with `@w:`, and else GeoJSON. No name
/// says a sequence.
fn form_by_name(name: &str) -> Form
    ensures { result ≡ form_that_name_says name.now }
{
    let name = name.as_bytes();
    if name.ends_with(b".wkt") || name.starts_with(b"@w:") {
        Form::Wkt
    } else {
        Form::GeoJson
    }
}

/// The form of the file of that name: the one that the line says, or else the one that the name says. It takes
/// no memory.
pub fn form_of(line: &Line, name: &str) -> Form
    ensures { result ≡ form_of_name line.now name.now }
{
    match line.form {
        Some(form) => form,
        None => form_by_name(name),
    }
}
