//! Lines of a script: what a line says or its first fault, and the texts of numbers, refusals and forms.
//!
//! `Lines` cuts a script into lines, one piece after another. `read_line` makes a `Line`, and is the only
//! call that looks at what the bytes of one say. Contracts cite `specs/Lines.antt` (what is kept of a line),
//! `specs/Reading.antt` (a line as its word and fields, and the order of the checks),
//! `specs/Kinds.antt` (the checks of each kind of line), `specs/Letters.antt` (words),
//! `specs/Setting.antt` (the field and the datum that a line is read with), `specs/Texts.antt` and
//! `specs/FormTexts.antt`. A later word of the language is a case of `Keyword`, of `Line` and of
//! `own_line` there. The crate stands on `lie_field`, `lie_datum`, `lie_weyl`, `lie_letters`,
//! `lie_unip` and `itoa`.
#![tactic(auto)]

mod allowed;
mod faults;
mod fields;
mod form_texts;
mod kept;
mod keyword;
mod kinds;
mod laws;
mod letters;
mod line;
mod lines;
mod module_kind;
mod modules;
mod names;
mod numbers;
mod reading;
mod sizes;
mod texts;

pub use allowed::Allowed;
pub use faults::{Fault, FaultName, LineFault};
pub use form_texts::put_form;
pub use kept::{Numbers, Text};
pub use keyword::Keyword;
pub use laws::accepted_lines_fit;
pub use line::Line;
pub use lines::{Fed, Lines};
pub use names::{Names, NoNames};
pub use numbers::number_of;
pub use reading::read_line;
pub use sizes::{Sizes, Wants};
pub use texts::{put_number, put_spaced, refusal};
