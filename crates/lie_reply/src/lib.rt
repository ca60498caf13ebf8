//! The texts that answer the commands of a loaded group.
//!
//! Each call gives one text: `loaded_text` and `roots_text` of a field and a root datum, `form_text` of a
//! Bruhat form, `constant_text` of two roots, `weyl_text` of a product of simple reflections, `module_text`
//! of a named module, `covered_text` of a coordinate that a module covers, `matrix_text` of a matrix. Contracts
//! cite `specs/Texts.antt` (how values are written), `specs/Modules.antt` (modules and matrices) and
//! `specs/Commands.antt` (which values a command asks for, the text of a form of a word among them), and
//! lie_script `specs/FormTexts.antt` (how a form is written); what equal replies mean are public functions of
//! `laws`. The crate stands on `lie_field`, `lie_dense`, `lie_datum`, `lie_weyl`, `lie_const`, `lie_letters`,
//! `lie_unip` and `lie_script`.
#![tactic(auto)]

mod constant;
mod form;
mod laws;
mod modules;
mod texts;
mod weyl;

pub use constant::constant_text;
pub use form::form_text;
pub use laws::{equal_texts_equal_forms, replies_tell_words};
pub use modules::{covered_text, matrix_text, module_text};
pub use texts::{loaded_text, roots_text, same_text};
pub use weyl::weyl_text;
