//! The answers of commands that don't last, and of refused ones.

ghost use Rattle.std.specs.Prelude.{◌≡◌, false, IfOk, OnErr, Some, None};
ghost use Rattle.fsrm_model.specs.declared.command.Outcome.TheVariants.{Listing};
ghost use Rattle.fsrm_parts.specs.Faults.{exceeded_refusal, group_answer, refusal_of, refused_answer, table_answer, template_answer};

use file_groups::GroupFault;
use fsrm_model::{Answer, Ask, NoMemory, Outcome, Refusal};
use fsrm_objects::ObjectFault;
use quota_usage::Exceeded;
use templates::TemplateFault;
use volume_tree::TreeFault;

/// The answer of a command that doesn't last.
#[inline]
pub fn passing(outcome: Outcome) -> Answer
    ensures { result ≡ record { outcome = outcome; lasting = false } }
{
    Answer {
        outcome,
        lasting: false,
    }
}

/// The answer of a command that lists something.
#[inline]
pub fn listing(ask: Ask) -> Answer
    ensures { result ≡ record { outcome = Listing ask; lasting = false } }
{
    passing(Outcome::Listing(ask))
}

/// The answer of a refused command that doesn't last.
#[inline]
pub fn refused(refusal: Refusal) -> Answer
    ensures { result ≡ refused_answer refusal }
{
    passing(Outcome::Refused(refusal))
}

/// The refusal of a command that the tree refused.
#[inline]
pub fn refusal_of(fault: TreeFault) -> Refusal
    ensures { result ≡ refusal_of fault }
{
    match fault {
        TreeFault::AlreadyExists => Refusal::AlreadyExists,
        TreeFault::InvalidMove => Refusal::InvalidMove,
        TreeFault::NotEmpty => Refusal::NotEmpty,
        TreeFault::VolumeFull => Refusal::VolumeFull,
        TreeFault::NamesFull => Refusal::NamesFull,
    }
}

/// The answer of a command that the tables of objects refused, and that doesn't last. A lack of memory is no refusal.
#[inline]
pub fn refused_for(fault: ObjectFault) -> Result<Answer, NoMemory>
    ensures ok { IfOk result (λ answer. table_answer fault ≡ Some answer) }
    ensures err { OnErr result (table_answer fault ≡ None) }
{
    let refusal = match fault {
        ObjectFault::AlreadyExists => Refusal::AlreadyExists,
        ObjectFault::InvalidCombination => Refusal::InvalidCombination,
        ObjectFault::DuplicateName => Refusal::DuplicateName,
        ObjectFault::OutOfRange => Refusal::OutOfRange,
        ObjectFault::TableFull => Refusal::TableFull,
        ObjectFault::TextsFull => Refusal::TextsFull,
        ObjectFault::NoMemory => return Err(NoMemory),
    };
    Ok(refused(refusal))
}

/// The same of a command that the table of file groups refused.
#[inline]
pub fn refused_by_groups(fault: GroupFault) -> Result<Answer, NoMemory>
    ensures ok { IfOk result (λ answer. group_answer fault ≡ Some answer) }
    ensures err { OnErr result (group_answer fault ≡ None) }
{
    let refusal = match fault {
        GroupFault::DuplicateName => Refusal::DuplicateName,
        GroupFault::TableFull => Refusal::TableFull,
        GroupFault::TextsFull => Refusal::TextsFull,
        GroupFault::NoMemory => return Err(NoMemory),
    };
    Ok(refused(refusal))
}

/// The same of a command that the tables of templates and auto-apply quotas refused.
#[inline]
pub fn refused_by_templates(fault: TemplateFault) -> Result<Answer, NoMemory>
    ensures ok { IfOk result (λ answer. template_answer fault ≡ Some answer) }
    ensures err { OnErr result (template_answer fault ≡ None) }
{
    let refusal = match fault {
        TemplateFault::DuplicateName => Refusal::DuplicateName,
        TemplateFault::AlreadyExists => Refusal::AlreadyExists,
        TemplateFault::InUse => Refusal::InUse,
        TemplateFault::TableFull => Refusal::TableFull,
        TemplateFault::TextsFull => Refusal::TextsFull,
        TemplateFault::NoMemory => return Err(NoMemory),
    };
    Ok(refused(refusal))
}

/// The refusal by a quota.
#[inline]
pub fn exceeded_by(exceeded: Exceeded) -> Refusal
    ensures { result ≡ exceeded_refusal exceeded }
{
    Refusal::QuotaExceeded {
        folder: exceeded.folder,
        would: exceeded.would,
        limit: exceeded.limit,
    }
}
