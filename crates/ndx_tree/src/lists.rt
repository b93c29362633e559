//! Vectors that have room, and so take no memory when items come in.

ghost use Rattle.std.specs.Prelude.{◌≡◌, ◌+◌, ◌<◌, ◌≤◌, [], ◌++◌, take, drop, insert};
ghost use Rattle.std.specs.Vec.{vec_capacity, vec_len};

// Puts an item at a place of a list that has room.
pub(crate) fn put<T: Drop>(items: &mut Vec<T>, at: usize, item: T)
    requires within { at ≤ vec_len items.old }
    requires room { vec_len items.old < vec_capacity items.old }
    ensures items { items.new.items ≡ insert items.old.items at item }
    ensures capacity { vec_capacity items.old ≤ vec_capacity items.new }
{
    let Ok(()) = items.insert(at, item) else {
        unreachable!()
    };
}

// Moves what stands from a place on to an empty list that has room.
pub(crate) fn move_tail<T: Drop>(from: &mut Vec<T>, at: usize, to: &mut Vec<T>)
    requires within { at ≤ vec_len from.old }
    requires empty { to.old.items ≡ [] }
    requires room { vec_len from.old ≤ at + vec_capacity to.old }
    ensures kept { from.new.items ≡ take at from.old.items }
    ensures moved { to.new.items ≡ drop at from.old.items }
    ensures kept_capacity { vec_capacity from.old ≤ vec_capacity from.new }
    ensures capacity { vec_capacity to.old ≤ vec_capacity to.new }
{
    while from.len() > at {
        let Some(item) = from.pop() else {
            unreachable!()
        };
        let Ok(()) = to.push(item) else {
            unreachable!()
        };
    }
    to.reverse();
}

// Moves all of a list to the end of another that has room.
pub(crate) fn move_all<T: Drop>(from: &mut Vec<T>, to: &mut Vec<T>)
    requires { vec_len to.old + vec_len from.old ≤ vec_capacity to.old }
    ensures moved { to.new.items ≡ to.old.items ++ from.old.items }
    ensures empty { from.new.items ≡ [] }
    ensures kept_capacity { vec_capacity from.old ≤ vec_capacity from.new }
    ensures capacity { vec_capacity to.old ≤ vec_capacity to.new }
{
    from.reverse();
    while let Some(item) = from.pop() {
        let Ok(()) = to.push(item) else {
            unreachable!()
        };
    }
}
