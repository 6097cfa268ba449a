// What depot and gateway tell each other, for an identity: the depot's next state and its reply by a constant table, and the gateway's vote.
#![tactic(auto)]

ghost use Rattle.std.specs.Prelude.{◌≡◌, ◌+◌, ◌*◌, ◌<◌, ℕ};
ghost use Rattle.depot_message.specs.Codes.{depot_left, entry_left};
ghost use Rattle.depot_message.specs.Votes.{vote_on, said};

// By state (0 idle, 1 asked, 2 committed, 3 aborted) and message (0 start, 1 yes, 2 no, 3 give-up): the next state times 4, and the reply
// (0 prepare, 1 commit, 2 abort). Nothing leads to idle: 0 is refused. Numbers, not enums: states, messages and replies are C's bytes (nekahuiro_depot).
const TABLE: [u8; 16] = [4, 0, 0, 0, 0, 9, 14, 14, 4, 9, 9, 0, 4, 14, 14, 0];

// Why the depot takes no turn.
#[derive(Clone, Copy, Debug, PartialEq, Eq)]
enum Refusal {
    // The table has no such turn, or there is no such state or message.
    NoTurn = 27,
}

impl From<Refusal> for u8 {
    ghost use Rattle.std.specs.Prelude.{◌≡◌};
    ghost use Rattle.depot_message.specs.Codes.{turn_refusal};

    ghost from_gives = { λ r n. n ≡ turn_refusal r };

    fn from(r: Refusal) -> u8 {
        r as u8
    }
}

// The table's entry for a state and a message.
fn entry(state: u8, message: u8) -> Result<u8, Refusal>
    ensures { (reply : ℕ) → depot_left state message reply ≡ entry_left state reply result }
{
    if 4 <= state {
        return Err(Refusal::NoTurn);
    }
    if 4 <= message {
        return Err(Refusal::NoTurn);
    }
    match TABLE[place(state, message)] {
        0 => Err(Refusal::NoTurn),
        entry => Ok(entry),
    }
}

// The depot's turn for an identity: 0, with its next state and its reply; or 27 and nothing is written, also where there is no such state or message.
// The answer is a byte, as C has it (nekahuiro_depot).
pub fn depot(state: &mut u8, message: u8, reply: &mut u8) -> u8
    ensures { let turn = depot_left state.old message reply.old in (result ≡ turn.answer) × (state.new ≡ turn.state) × (reply.new ≡ turn.reply) }
{
    match entry(*state, message) {
        Ok(entry) => {
            *state = entry / 4;
            *reply = entry % 4;
            0
        }
        Err(refusal) => u8::from(refusal),
    }
}

fn place(state: u8, message: u8) -> usize
    requires { (state < 4) × (message < 4) }
    ensures { (result ≡ state * 4 + message) × (result < 16) }
{
    usize::from(state) * 4 + usize::from(message)
}

// The gateway's vote on an event of this kind by the two bytes of its answer, as a message to the depot: 1 yes, 2 no; 0 where it sends none.
// Kind, answer and vote are bytes, as C has them (nekahuiro_vote): any byte may stand for a kind.
pub fn vote(kind: u8, number: u8, value: u8) -> u8
    ensures { result ≡ vote_on kind number value }
{
    match kind {
        9 => word(number == 0),
        11 => word((number == 0) & (value == 1)),
        _ => 0,
    }
}

fn word(yes: bool) -> u8
    ensures { result ≡ said yes }
{
    if yes { 1 } else { 2 }
}
