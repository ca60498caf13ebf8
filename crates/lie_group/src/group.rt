//! A group that is loaded: its frame, and its carrier, which is audited and covering.

ghost use Rattle.std.specs.Prelude.{◌≡◌, ℕ, List, IfOk, reverse};
ghost use Rattle.lie_ring.specs.Matrices.{AllElem};
ghost use Rattle.lie_field.specs.FieldRing.{field_ring};
ghost use Rattle.lie_weyl.specs.WeylElement.{Spells};
ghost use Rattle.lie_const.specs.Modules.{IsModule, dimension};
ghost use Rattle.lie_const.specs.Signs.{eta_of};
ghost use Rattle.lie_letters.specs.SignedFrames.{unsigned};
ghost use Rattle.lie_letters.specs.Spelled.{IsWordOver};
ghost use Rattle.lie_unip.specs.Forms.{IsForm, IsFormOf};
ghost use Rattle.lie_bruhat.specs.Products.{IsProduct, IsInverse};
ghost use Rattle.lie_identities.specs.Audit.{Audits, HasLightWeights};
ghost use Rattle.lie_identities.specs.Audited.{audited_module};
ghost use Rattle.lie_identities.specs.CoverLines.{no_lines};
ghost use Rattle.lie_identities.specs.Covers.{IsCovering};
ghost use Rattle.lie_audit.specs.WordMatrix.{word_matrix as matrix_of_word};
ghost use Rattle.lie_reduce.specs.Reduction.{Reduces};
ghost use Rattle.lie_group.specs.Groups.{IsAuditedFor, IsGroup, LoadsGroup};

use crate::carriers::{audited_carrier, test_covering};
use crate::faults::LoadFault;
use lie_audit::{AuditFault, Audited, audit, word_matrix};
use lie_bruhat::{form, inv, mul};
use lie_dense::Dense;
use lie_letters::{Frame, Word};
use lie_reduce::reduce;
use lie_unip::Form;
use lie_weight::Module;
use std::alloc::{AllocError, Global};
use std::marker::Model;

/// A frame and its carrier, which is audited for it and covering over its field.
#[derive(Drop)]
pub struct Group {
    frame: Frame,
    carrier: Audited,
}

impl Model for Group {
    ghost use Rattle.lie_group.specs.Groups.{GroupData, IsGroup};

    ghost Value = { GroupData };

    ghost view = { λ g. record { frame = g.frame; carrier = g.carrier } };

    ghost invariant = { λ g. IsGroup (record { frame = g.frame; carrier = g.carrier }) };
}

impl Group {
    /// The group of a frame, which is kept in it; or the first fault of its carrier, of the audit of the carrier, or of
    /// its covering.
    pub fn load(alloc: Global, frame: Frame) -> Result<Group, LoadFault>
        ensures { LoadsGroup frame result }
    {
        frame.lawful();
        frame.counted();
        let carrier = audited_carrier(alloc, &frame)?;
        test_covering(&frame, &carrier)?;
        Ok(Group { frame, carrier })
    }

    /// What a group keeps.
    pub fn lawful(&self)
        ensures { IsGroup self.now }
    {
        let _ = &self.frame;
    }

    /// The field, the datum, the constants and the signs. It takes no memory.
    pub fn frame(&self) -> &Frame
        ensures { result.now ≡ self.now.frame }
    {
        &self.frame
    }

    /// The carrier. It takes no memory.
    pub fn carrier(&self) -> &Audited
        ensures { result.now ≡ self.now.carrier }
    {
        &self.carrier
    }

    /// A Bruhat form of a word.
    pub fn form(&self, alloc: Global, w: &Word) -> Result<Form, AllocError>
        requires { IsWordOver (unsigned self.now.frame) w.now }
        ensures { IfOk result (λ x. IsFormOf self.now.frame x w.now) }
    {
        form(alloc, &self.frame, w)
    }

    /// The product: a form of the words of `a` followed by those of `b`.
    pub fn mul(&self, alloc: Global, a: &Form, b: &Form) -> Result<Form, AllocError>
        requires a { IsForm self.now.frame a.now }
        requires b { IsForm self.now.frame b.now }
        ensures { IfOk result (IsProduct self.now.frame a.now b.now) }
    {
        mul(alloc, &self.frame, a, b)
    }

    /// The inverse: a form of the reversed words of `a`, whose Weyl element is the inverse of that of `a`.
    pub fn inv(&self, alloc: Global, a: &Form) -> Result<Form, AllocError>
        requires { IsForm self.now.frame a.now }
        ensures inverse { IfOk result (IsInverse self.now.frame a.now) }
        ensures weyl { IfOk result (λ x. (w : List ℕ) → Spells self.now.frame.datum w a.now.weyl → Spells self.now.frame.datum (reverse w) x.weyl) }
    {
        inv(alloc, &self.frame, a)
    }

    /// The module, audited for the group, without cover lines; or what fails first.
    pub fn audit(&self, alloc: Global, space: Module) -> Result<Audited, AuditFault>
        requires shape { IsModule self.now.frame.datum space }
        requires light { HasLightWeights space }
        ensures audits { Audits self.now.frame.datum self.now.frame.constants (eta_of self.now.frame.signs) space (audited_module result) }
        ensures kept { IfOk result (IsAuditedFor self.now.frame) }
        ensures lines { IfOk result (λ a. a.lines ≡ no_lines) }
    {
        self.frame.lawful();
        let Frame {
            datum,
            constants,
            signs,
            ..
        } = &self.frame;
        audit(alloc, datum, constants, signs, space)
    }

    /// The matrix of a word on a module that is audited for the group, over the field.
    pub fn matrix(&self, alloc: Global, space: &Audited, w: &Word) -> Result<Dense, AllocError>
        requires audited { IsAuditedFor self.now.frame space.now }
        requires word { IsWordOver (unsigned self.now.frame) w.now }
        ensures value { IfOk result (λ m. m ≡ matrix_of_word self.now.frame.field space.now.module w.now) }
        ensures elem { IfOk result (AllElem (field_ring self.now.frame.field)) }
    {
        let Frame { field, datum, .. } = &self.frame;
        word_matrix(alloc, field, datum, space.module(), w)
    }

    /// The form whose word has the matrix m on a module that is audited for the group and covering;
    /// None exactly where no word has it.
    pub fn reduce(
        &self,
        alloc: Global,
        space: &Audited,
        m: &Dense,
    ) -> Result<Option<Form>, AllocError>
        requires audited { IsAuditedFor self.now.frame space.now }
        requires covering { IsCovering self.now.frame.field self.now.frame.datum space.now.module space.now.lines }
        requires dimension { m.now.height ≡ dimension space.now.module }
        requires elem { AllElem (field_ring self.now.frame.field) m.now }
        ensures { IfOk result (Reduces self.now.frame space.now.module m.now) }
    {
        reduce(alloc, &self.frame, space, m)
    }
}
