// What the writer does.

ghost use Rattle.std.specs.Prelude.{◌≡◌, ◌<◌, ◌≤◌, ◌^◌, ◌++◌, ◌∷◌, [], length, drop, IfOk};
ghost use Rattle.left_right.specs.Sides.{view};
ghost use Rattle.lk_front.specs.Chains.{IsChain};

use crate::stand::{Look, ShelfReader, ShelfWriter, Stand, Told};
use lk_front::{Entry, Front, Head, Shelves};
use std::alloc::AllocError;
use std::sync::Wait;

// Adds a value to the list. Only the publisher has the head, so the first try does.
pub(crate) fn add<T: Entry, J: Shelves>(
    rt: &impl Wait,
    head: &Head<T, J>,
    front: &mut Front<T, J>,
    value: &T,
)
    requires room { length front.old < 2 ^ 63 }
    requires chain { IsChain T.begins T.follows (front.old ++ value.now ∷ []) }
    ensures { front.new ≡ front.old ++ value.now ∷ [] }
{
    for _ in rt.forever() {
        if front.add(head, value) {
            return;
        }
    }
}

// Shows readers the stand from now on. It waits for those that read the copy that is not shown. The log has room for the stand, and
// the shares of its value do not run out, so the first tries do.
pub(crate) fn show<T: Entry, J: Shelves>(
    rt: &impl Wait,
    mut writer: ShelfWriter<T, J>,
    stand: Stand<T, J>,
) -> ShelfWriter<T, J>
    requires none { drop writer.behind writer.log.items ≡ [] }
    requires longer { length writer.desk.shown.value ≤ length stand }
    ensures none { drop result.behind result.log.items ≡ [] }
    ensures shown { length result.desk.shown.value ≡ length stand }
    ensures known { view result.desk.place ≡ length stand }
{
    let mut next = Some(stand);
    for _ in rt.forever() {
        let Some(stand) = next.take() else {
            break;
        };
        next = writer.append(stand).err();
    }
    for _ in rt.forever() {
        let (after, shown) = writer.publish_as::<Look, _>(rt);
        writer = after;
        if shown.is_ok() {
            break;
        }
    }
    writer
}

// A new reader, which knows what the writer knows.
pub(crate) fn new_reader<T: Entry, J: Shelves>(
    writer: &mut ShelfWriter<T, J>,
) -> Result<ShelfReader<T, J>, AllocError>
    ensures kept { (writer.new.desk.shown ≡ writer.old.desk.shown) × (writer.new.log ≡ writer.old.log) × (writer.new.behind ≡ writer.old.behind) × (view writer.new.desk.place ≡ view writer.old.desk.place) }
    ensures told { IfOk result (λ reader. view reader.place ≡ view writer.old.desk.place) }
{
    let mut reader = writer.factory().reader()?;
    reader.learn::<Told>(writer.tell::<Told>());
    Ok(reader)
}

// The same once there is a place for it.
pub(crate) fn wait_for_reader<T: Entry, J: Shelves>(
    rt: &impl Wait,
    writer: &mut ShelfWriter<T, J>,
) -> ShelfReader<T, J>
    ensures kept { (writer.new.desk.shown ≡ writer.old.desk.shown) × (writer.new.log ≡ writer.old.log) × (writer.new.behind ≡ writer.old.behind) × (view writer.new.desk.place ≡ view writer.old.desk.place) }
    ensures told { view result.place ≡ view writer.old.desk.place }
{
    for _ in rt.forever() {
        if let Ok(reader) = new_reader(writer) {
            return reader;
        }
    }
    unreachable!()
}
