// Lists of commands.
ghost use Rattle.std.specs.Prelude.{◌≡◌, ◌<◌, ◌≤◌, nat_lt, length, filter};
ghost use Rattle.std.specs.List.{list_all, list_any, position, position_or_len};
ghost use Rattle.std.specs.Vec.{vec_capacity};
ghost use Rattle.mat_model.specs.Gate.{is_beside, is_command, is_other, is_soft, put_number, with_soft};

// Whether a command is among some.
pub(crate) fn has(commands: &[u32], command: u32) -> bool
    ensures { result ≡ list_any (is_command command) commands.now }
{
    commands.contains(&command)
}

// Whether each of some commands is soft.
pub(crate) fn are_soft(soft: &[u32], commands: &[u32]) -> bool
    ensures { result ≡ list_all (is_soft soft.now) commands.now }
{
    commands.iter().all(|&command| has(soft, command))
}

// Whether a command isn't among some.
fn is_beside(commands: &[u32], command: u32) -> bool
    ensures { result ≡ is_beside commands.now command }
{
    !has(commands, command)
}

// The place of the first number that is greater than one.
fn first_greater(numbers: &[u32], number: u32) -> Option<usize>
    ensures { result ≡ position (nat_lt number) numbers.now }
{
    numbers.iter().position(|&other| number < other)
}

// The place in front of the first number that is greater than one, or the end.
#[tactic(auto, using(crate::proofs::Ascending::position_is))]
fn place_of(numbers: &[u32], number: u32) -> usize
    ensures value { result ≡ position_or_len (nat_lt number) numbers.now }
    ensures within { result ≤ length numbers.now }
{
    first_greater(numbers, number).unwrap_or(numbers.len())
}

// Puts a number in its place among ascending ones, for which there is room.
#[tactic(auto, using(crate::proofs::Ascending::put_number_is))]
pub(crate) fn put_number(numbers: &mut Vec<u32>, number: u32)
    requires { length numbers.old.items < vec_capacity numbers.old }
    ensures items { numbers.new.items ≡ put_number number numbers.old.items }
    ensures capacity { vec_capacity numbers.new ≡ vec_capacity numbers.old }
{
    let place = place_of(numbers.as_slice(), number);
    let _ = numbers.insert(place, number);
}

// The soft commands with one that comes, if it is soft.
pub(crate) fn put_soft(numbers: &mut Vec<u32>, command: u32, soft: bool)
    requires { length numbers.old.items < vec_capacity numbers.old }
    ensures items { numbers.new.items ≡ with_soft soft command numbers.old.items }
    ensures capacity { vec_capacity numbers.new ≡ vec_capacity numbers.old }
{
    if soft {
        put_number(numbers, command);
    }
}

// Takes a command out of some.
pub(crate) fn drop_number(numbers: &mut Vec<u32>, command: u32)
    ensures items { numbers.new.items ≡ filter (is_other command) numbers.old.items }
    ensures capacity { vec_capacity numbers.new ≡ vec_capacity numbers.old }
{
    numbers.retain(|&other| other != command);
}

// Takes some commands out of others.
pub(crate) fn drop_all(numbers: &mut Vec<u32>, commands: &[u32])
    ensures items { numbers.new.items ≡ filter (is_beside commands.now) numbers.old.items }
    ensures fewer { length numbers.new.items ≤ length numbers.old.items }
    ensures capacity { vec_capacity numbers.new ≡ vec_capacity numbers.old }
{
    numbers.retain(|&other| is_beside(commands, other));
}
