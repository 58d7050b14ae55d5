// The places in a file that depend on its version: from version 2 on the unknown facts stand between the start and the goal's mask, and in
// version 3 a mask of facts that are off stands behind the goal's mask and at the end of each action. A version is the file's byte, as the
// definitions of places take it.
#![tactic(auto)]

ghost use Rattle.std.specs.Prelude.{◌≡◌, ◌+◌, not, eqb};
ghost use Rattle.meaning.specs.Layout.{goal_at, off_size, action_count_at, action_size, after_actions};

// Whether the unknown facts have a field.
pub fn has_unknown(version: u8) -> bool
    ensures { result ≡ not (eqb version 1) }
{
    version != 1
}

// How many bytes stand from the start's mask to the goal's.
pub fn goal_span(version: u8) -> u8
    ensures { 6 + result ≡ goal_at version }
{
    if has_unknown(version) { 16 } else { 8 }
}

// Where the goal's mask stands.
pub fn goal_at(version: u8) -> u32
    ensures { result ≡ goal_at version }
{
    6 + goal_span(version) as u32
}

// How many bytes a mask of facts that are off has, the goal's or an action's.
pub fn off_size(version: u8) -> u8
    ensures { result ≡ off_size version }
{
    if version == 3 { 8 } else { 0 }
}

// Where the count of the actions stands, with the actions behind it.
pub fn action_count_at(version: u8) -> u32
    ensures { result ≡ action_count_at version }
{
    goal_at(version) + 8 + off_size(version) as u32
}

// How many bytes an action has.
pub fn action_size(version: u8) -> u8
    ensures { result ≡ action_size version }
{
    24 + off_size(version)
}

// The place after so many actions.
pub fn after_actions(version: u8, count: u16) -> u32
    ensures { result ≡ after_actions version count }
{
    action_count_at(version) + 2 + action_size(version) as u32 * count as u32
}
