// What was kept of the objects and the held queues is put back.
ghost use Rattle.std.specs.Prelude.{◌≡◌, MatchResult, None};
ghost use Rattle.wm_desc.specs.Sorted.{IsSortedOnce};
ghost use Rattle.wm_desc.specs.Table.{changed, name_of, object_named, qname_cmp, StandsAt};
ghost use Rattle.wm_making.specs.Saved.{without_object, old_objects, old_held};

use crate::Saved;
use std::alloc::Global;
use std::cmp::Ordering;
use std::mem::replace;
use wm_base::{Kind, QName};
use wm_desc::{Objects, Sbsd, Sbsds, SortedList};
use wm_law::QNames;

// The objects lose one of a kind.
fn remove_object(objects: &mut Objects, kind: Kind, name: &QName)
    ensures { objects.new ≡ without_object kind name.now objects.old }
{
    match kind {
        Kind::Cls => {
            objects.classes.remove(name);
        }
        Kind::Jobq => {
            objects.jobqs.remove(name);
        }
        Kind::Pgm => {
            objects.programs.remove(name);
        }
        Kind::Jobd => {
            objects.jobds.remove(name);
        }
        Kind::Sbsd => {
            objects.sbsds.remove(name);
        }
        _ => {}
    }
}

// Where the description of a name stands.
fn place(objects: &[(QName, Sbsd)], name: &QName) -> Result<usize, usize>
    requires { IsSortedOnce name_of qname_cmp objects.now }
    ensures { MatchResult result (StandsAt name.now objects.now) (λ _. object_named name.now objects.now ≡ None) }
{
    objects.binary_search_by(
        |object: &(QName, Sbsd)| -> Ordering
            ensures { result ≡ qname_cmp object.now.0 name.entry.now }
        { object.0.cmp(name) },
    )
}

// The descriptions with this one in place of that of its name.
fn redescribed(sbsds: Sbsds, name: &QName, description: Sbsd) -> Sbsds
    ensures { result ≡ changed name.now (λ _. description) sbsds }
{
    let mut objects = sbsds.into_vec();
    match place(&objects, name) {
        Err(_) => SortedList::from_vec(objects),
        Ok(at) => {
            let object = &mut objects[at];
            object.1 = description;
            SortedList::from_vec(objects)
        }
    }
}

/// What was kept is put back. It takes no memory.
pub fn put_back(alloc: Global, objects: &mut Objects, held: &mut QNames, saved: Saved)
    ensures objects { objects.new ≡ old_objects saved objects.old }
    ensures held { held.new ≡ old_held saved held.old }
{
    match saved {
        Saved::Nothing => {}
        Saved::New(kind, name) => remove_object(objects, kind, &name),
        Saved::Description(name, description) => {
            let sbsds = replace(&mut objects.sbsds, SortedList::new(alloc));
            objects.sbsds = redescribed(sbsds, &name, description);
        }
        Saved::Held(queues) => *held = queues,
    }
}
