// The two players of a parity game, and the two kinds of numbers that a game is made of (player.rs, the index types of
// parity_game.rs).
#![tactic(auto)]

ghost use Rattle.std.specs.Prelude.{◌≡◌};
ghost use Rattle.player.specs.Player.{player_index, other_player};

#[derive(Clone, Copy, Debug, PartialEq, Eq)]
pub enum Player {
    Even,
    Odd,
}

// The number of a vertex. Only where words are read or written is it taken apart.
#[derive(Clone, Copy, Debug, PartialEq, Eq)]
pub struct VertexIndex(pub u32);

// The priority of a vertex. Only where words are written is it taken apart.
#[derive(Clone, Copy, Debug, PartialEq, Eq)]
pub struct Priority(pub u32);

// Even is 0, Odd is 1.
impl From<Player> for u32 {
    ghost from_gives = { λ player word. word ≡ player_index player };

    fn from(player: Player) -> u32 {
        player as u32
    }
}

impl Player {
    pub fn opponent(self) -> Player
        ensures { result ≡ other_player self }
    {
        match self {
            Player::Even => Player::Odd,
            Player::Odd => Player::Even,
        }
    }
}
