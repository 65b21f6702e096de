// What a floor was opened with.
use wm_law::State;

/// What a floor was opened with: the state, the keeper as the opening left it, the keeper as it was found, and below how many
/// entries users' commands are taken. It exists in contracts alone: no value of it is made.
pub struct Opened<K> {
    pub state: State,
    pub keeper: K,
    pub found: K,
    pub limit: u32,
}
