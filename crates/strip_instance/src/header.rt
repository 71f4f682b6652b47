// The header: the actors' names.
ghost use Rattle.std.specs.Prelude.{◌≡◌, ◌<◌, ◌≤◌, length, IfOk, OnOk};
ghost use Rattle.strip_text.specs.Rows.{field_of};
ghost use Rattle.strip_instance.specs.Parts.{actor_fields};
ghost use Rattle.strip_instance.specs.Checks.{Makes};
ghost use Rattle.strip_instance.specs.Faults.{actor_name_checks, header_checks, is_header};
ghost use Rattle.strip_instance.specs.Shown.{strs};

use crate::fault::InstanceFault;
use crate::field::{is_name, is_word, text_of};
use crate::names::is_earlier_actor;
use crate::row::actor_count;
use std::alloc::Global;
use strip_model::MAX_ACTORS;
use strip_text::Row;

/// Reads the actors' names, in the order of their columns.
pub(crate) fn read_names(alloc: Global, header: &Row) -> Result<Vec<&str>, InstanceFault>
    ensures makes { Makes (header_checks header.now) result }
    ensures names { IfOk result (λ names. strs names.items ≡ actor_fields header.now) }
    ensures few { OnOk result (length (actor_fields header.now) ≤ 64) }
{
    if !is_header(header) {
        return Err(InstanceFault::BadHeader);
    }
    let mut names = Vec::new(alloc);
    for actor in 0..actor_count(header) {
        names.push(read_name(header, actor)?)?;
    }
    Ok(names)
}

fn is_header(header: &Row) -> bool
    ensures { result ≡ is_header header.now }
{
    is_word(b"scene", header.field(0)) && is_word(b"days", header.field(1))
}

/// Reads the name of the actor with this number.
fn read_name(header: &Row, actor: usize) -> Result<&str, InstanceFault>
    requires { actor < length (actor_fields header.now) }
    ensures makes { Makes (actor_name_checks (actor_fields header.now) actor) result }
    ensures name { IfOk result (λ name. name.now ≡ field_of (actor_fields header.now) actor) }
    ensures few { OnOk result (actor < 64) }
{
    if actor >= MAX_ACTORS {
        return Err(InstanceFault::TooManyActors);
    }
    let col = actor as u64 + 3;
    let name = text_of(header.field(actor + 2), 1, col)?;
    if !is_name(name.as_bytes()) {
        return Err(InstanceFault::BadName { row: 1, col });
    }
    if is_earlier_actor(header, actor) {
        return Err(InstanceFault::DuplicateActor { col });
    }
    Ok(name)
}
