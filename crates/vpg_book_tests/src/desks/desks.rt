//! Worked calls on desks, as tables: each row is a call and its answer.

use crate::calls::Answer::{
    Added, AnyToken, Done, Forgotten, Has, Is, Kept, NotCommitted, NotDecided, NotRedone, NotReset,
    NotRetracted, Says, Sizes, Token,
};
use crate::calls::At::{First, Second, Third};
use crate::calls::By::{One, Two};
use crate::calls::{
    Answer, At, By, Calls, Other, RowCall, Step, carry_out, harvest_of, hold_harvest,
};
use crate::given::{family, given, require};
use crate::pages::is_text;
use std::mem;
use std::process::Abort;
use std::sync::{Arc, Wait};
use std::test::*;
use vpg_desk::{
    CommitFault, CommitRefused, DecideFault, Desk, OpenFault, Redo, RedoFault, RedoRefused,
    ResetFault, RetractFault, TokensOut, Undo,
};
use vpg_diagram::Diagram;
use vpg_game::GuardedGame;
use vpg_measure::Harvest;
use vpg_small_family::{
    ALTERNATIVE, CONTRADICTORY, DIAGRAM, F, G, GAME, Lone, diagram_of, lone_game,
};

/// The token of a change that was made or undone, until it is spent.
enum DeskToken {
    Nothing,
    Undo(Undo),
    Redo(Redo),
}

/// A desk, the tokens that are held, and a harvest.
struct Table {
    desk: Desk,
    first: DeskToken,
    second: DeskToken,
    third: DeskToken,
    harvest: Option<Harvest>,
}

impl Table {
    fn at(&mut self, at: At) -> &mut DeskToken {
        match at {
            At::First => &mut self.first,
            At::Second => &mut self.second,
            At::Third => &mut self.third,
        }
    }
}

fn is_nothing(rt: &impl Abort, held: DeskToken) {
    match held {
        DeskToken::Nothing => {}
        _ => rt.panic("a token is held"),
    }
}

/// Returns the token of a change to hold, and its serial.
fn undo_of(token: Undo) -> (DeskToken, Answer) {
    let serial = token.serial();
    (DeskToken::Undo(token), Answer::Token(serial))
}

/// Makes a call that gives a token. Returns the token that is held then, and the answer.
fn made<R: Abort + AllocGlobal>(
    rt: &R,
    desk: &mut Desk,
    by: By,
    call: RowCall,
) -> (DeskToken, Answer) {
    let session = by as u32 + 1;
    match call {
        RowCall::Decide(_, feature, value) => {
            match desk.decide(rt.alloc(), session, feature, value) {
                Ok(token) => undo_of(token),
                Err(fault) => (DeskToken::Nothing, NotDecided(fault)),
            }
        }
        RowCall::Retract(_, feature) => match desk.retract(rt.alloc(), session, feature) {
            Ok(token) => undo_of(token),
            Err(fault) => (DeskToken::Nothing, NotRetracted(fault)),
        },
        RowCall::Reset(_) => match desk.reset(rt.alloc(), session) {
            Ok(token) => undo_of(token),
            Err(fault) => (DeskToken::Nothing, NotReset(fault)),
        },
        _ => (DeskToken::Nothing, Answer::NoCall),
    }
}

/// Makes a call that spends a token. Returns the token that is held then, and the answer.
fn spent<R: Abort + AllocGlobal>(
    rt: &R,
    desk: &mut Desk,
    held: DeskToken,
    call: RowCall,
) -> (DeskToken, Answer) {
    assert!(rt; desk.tokens() > 0);
    match held {
        DeskToken::Undo(token) => match call {
            RowCall::Undo(_) => {
                let token = given(rt, desk.undo(rt.alloc(), token));
                let serial = token.serial();
                (DeskToken::Redo(token), Token(serial))
            }
            _ => {
                desk.keep(token);
                (DeskToken::Nothing, Kept)
            }
        },
        DeskToken::Redo(token) => match call {
            RowCall::Redo(_) => match desk.redo(rt.alloc(), token) {
                Ok(token) => undo_of(token),
                Err(RedoRefused { fault, token }) => (DeskToken::Redo(token), NotRedone(fault)),
            },
            _ => {
                desk.forget(token);
                (DeskToken::Nothing, Forgotten)
            }
        },
        DeskToken::Nothing => (DeskToken::Nothing, Answer::NoCall),
    }
}

/// Returns a desk on a family; or why there is none, and both come back.
fn opened<R: Abort + AllocGlobal>(
    rt: &R,
    game: Arc<GuardedGame>,
    diagram: Arc<Diagram>,
) -> Result<Desk, OpenFault> {
    assert!(rt; game.features() == diagram.features());
    match Desk::open(rt.alloc(), game, diagram) {
        Ok(desk) => Ok(desk),
        Err(refused) => {
            let same = refused.game.features() == refused.diagram.features();
            require(rt, same, "what comes back");
            Err(refused.fault)
        }
    }
}

fn desk_on<R: Abort + AllocGlobal>(rt: &R, game: &[u8], diagram: &[u8]) -> Desk {
    let (game, diagram) = family(rt, game, diagram);
    given(rt, opened(rt, game, diagram))
}

/// Returns a desk on another family than that of most examples.
fn other_desk<R: Abort + AllocGlobal>(rt: &R, other: Other) -> Desk {
    match other {
        Other::Game => desk_on(rt, b"parity 0; 0 0 0 0[f];", DIAGRAM),
        Other::Diagram => desk_on(rt, GAME, b"root r\noptional r f\nmandatory r g\n"),
    }
}

/// Returns the number of tokens that are out of a desk, which isn't closed then and comes back.
fn tokens_out<R: Abort + AllocGlobal>(rt: &R, desk: &mut Desk) -> u64 {
    match mem::replace(desk, desk_on(rt, GAME, DIAGRAM)).close() {
        Ok(()) => 0,
        Err(TokensOut { tokens, desk: back }) => {
            *desk = back;
            tokens
        }
    }
}

/// Hands in the harvest that is held, which is still held if it is refused.
fn committed<R: Abort + AllocGlobal>(
    rt: &R,
    desk: &mut Desk,
    held: &mut Option<Harvest>,
) -> Answer {
    match desk.commit(rt.alloc(), held.take().expect(rt, "no harvest")) {
        Ok(added) => Added(added),
        Err(CommitRefused { fault, harvest }) => {
            hold_harvest(held, harvest);
            NotCommitted(fault)
        }
    }
}

impl Calls for Table {
    type Office = ();

    ghost vertices = { 2 };

    fn changes<R: Wait + Abort + AllocGlobal>(
        &mut self,
        rt: &R,
        _office: &(),
        by: By,
        at: At,
        call: RowCall,
    ) -> Answer {
        let (now, answer) = match mem::replace(self.at(at), DeskToken::Nothing) {
            DeskToken::Nothing => made(rt, &mut self.desk, by, call),
            held => spent(rt, &mut self.desk, held, call),
        };
        is_nothing(rt, mem::replace(self.at(at), now));
        answer
    }

    fn serial(&mut self, at: At) -> u64 {
        match self.at(at) {
            DeskToken::Nothing => 0,
            DeskToken::Undo(token) => token.serial(),
            DeskToken::Redo(token) => token.serial(),
        }
    }

    fn asks<R: Wait + Abort + AllocGlobal>(
        &mut self,
        rt: &R,
        _office: &(),
        _by: By,
        call: RowCall,
    ) -> Answer {
        let Table { desk, harvest, .. } = self;
        let order = match call {
            RowCall::Settled => return Is(desk.settled()),
            RowCall::Page(text) => {
                let page = given(rt, desk.page(rt.alloc()));
                return Is(is_text(rt.alloc(), &page, text));
            }
            RowCall::Commit => return committed(rt, desk, harvest),
            RowCall::Other(other) => other_desk(rt, other).order(rt.alloc()),
            RowCall::Seated => desk_on(rt, GAME, DIAGRAM).order(rt.alloc()),
            _ => desk.order(rt.alloc()),
        };
        hold_harvest(harvest, harvest_of(rt, given(rt, order), call));
        Done
    }

    fn verdict<R: Wait + Abort>(&mut self, rt: &R, _office: &(), _by: By, vertex: u32) -> Answer {
        assert!(rt; (vertex as usize) < self.desk.game().vertices());
        let verdict = self.desk.verdict(vertex);
        Says(verdict.hopeless, verdict.sure)
    }

    fn visits<R: Wait + Abort + AllocGlobal>(
        &mut self,
        rt: &R,
        _office: &(),
        _by: By,
        _call: RowCall,
    ) -> Answer {
        Has(tokens_out(rt, &mut self.desk) as usize)
    }

    fn looks<R: Abort>(&mut self, rt: &R, _by: By, _call: RowCall) -> Answer {
        match &self.harvest {
            Some(harvest) => {
                let order = harvest.order();
                Sizes(order.game().vertices(), order.diagram().clauses().len())
            }
            None => rt.panic("no harvest"),
        }
    }

    fn harvest(&mut self) -> &mut Option<Harvest> {
        &mut self.harvest
    }
}

/// Calls that are made so often, one time after the other.
type Part = (u32, &'static [Step]);

fn carry_out_often<R: Wait + Abort + AllocGlobal>(
    rt: &R,
    table: &mut Table,
    name: &str,
    (times, steps): Part,
) {
    for _ in 0..times {
        carry_out(rt, &(), table, name, steps);
    }
}

/// Closes a desk: no token is held.
fn close(rt: &impl Abort, table: Table) {
    let Table {
        desk,
        first,
        second,
        third,
        harvest: _,
    } = table;
    is_nothing(rt, first);
    is_nothing(rt, second);
    is_nothing(rt, third);
    given(rt, desk.close());
}

/// Makes all these calls on a desk on a family, and closes it.
fn carry_out_all<R: Wait + Abort + AllocGlobal>(
    rt: &R,
    game: &[u8],
    diagram: &[u8],
    name: &str,
    parts: &[Part],
) {
    let mut table = Table {
        desk: desk_on(rt, game, diagram),
        first: DeskToken::Nothing,
        second: DeskToken::Nothing,
        third: DeskToken::Nothing,
        harvest: None,
    };
    for part in parts {
        carry_out_often(rt, &mut table, name, *part);
    }
    close(rt, table);
}

/// Families without a desk, and why.
const REFUSED: &[(Lone, &[u8], OpenFault)] = &[
    (
        Lone::Zero,
        CONTRADICTORY,
        OpenFault::Conflict { feature: 0 },
    ),
    (Lone::AtLimit, DIAGRAM, OpenFault::AtLimit),
];

#[test]
fn openings_are_refused(rt: HostRuntime) {
    for (game, diagram, fault) in REFUSED {
        let diagram = given(&rt, diagram_of(rt.alloc(), diagram));
        let game = given(&rt, lone_game(rt.alloc(), &diagram, *game));
        let found = opened(&rt, game, diagram).err();
        require(&rt, found == Some(*fault), "an opening is refused");
    }
}

/// A change that is undone can't be redone once another is made.
const OVERTAKE: Part = (
    1,
    &[
        (One, RowCall::Decide(First, F, true), Token(1)),
        (One, RowCall::Undo(First), Token(1)),
        (One, RowCall::Decide(Second, G, true), Token(2)),
        (One, RowCall::Redo(First), NotRedone(RedoFault::Overtaken)),
    ],
);

/// Then a desk closes once its last token is spent.
const SPEND: &[Part] = &[
    OVERTAKE,
    (
        1,
        &[
            (One, RowCall::Keep(Second), Kept),
            (One, RowCall::Close, Has(1)),
            (One, RowCall::Forget(First), Forgotten),
        ],
    ),
];

/// The overtaken token is spent first.
const FORGET_FIRST: &[Part] = &[
    OVERTAKE,
    (
        1,
        &[
            (One, RowCall::Forget(First), Forgotten),
            (One, RowCall::Keep(Second), Kept),
        ],
    ),
];

/// The first of two alternatives is decided, and decisions that don't go with it are refused.
const REFUSE: &[Part] = &[(
    1,
    &[
        (One, RowCall::Decide(First, 1, true), Token(1)),
        (One, RowCall::Keep(First), Kept),
        (
            One,
            RowCall::Decide(First, 3, true),
            NotDecided(DecideFault::UnknownFeature),
        ),
        (
            One,
            RowCall::Decide(First, 1, true),
            NotDecided(DecideFault::AlreadyDecided { serial: 1 }),
        ),
        (
            One,
            RowCall::Decide(First, 2, true),
            NotDecided(DecideFault::Conflict { feature: 2 }),
        ),
        (
            One,
            RowCall::Retract(First, 3),
            NotRetracted(RetractFault::UnknownFeature),
        ),
    ],
)];

/// A change is undone and redone, with a lift between: pages come back.
const TURN: &[Part] = &[(
    1,
    &[
        (One, RowCall::Decide(First, F, false), Token(1)),
        (One, RowCall::Order, Done),
        (One, RowCall::Commit, Added(2)),
        (One, RowCall::Undo(First), Token(1)),
        (One, RowCall::Page("0 decided / 0 0 / 0 0 / "), Is(true)),
        (One, RowCall::Lift(0), Done),
        (One, RowCall::Commit, Added(1)),
        (One, RowCall::Redo(First), Token(1)),
        (
            One,
            RowCall::Page(
                "1 decided / exclude f 1 by 1 / hopeful 0 0 2 -f / dual 1 0 1 -f / 2 0 / 0 1 / ",
            ),
            Is(true),
        ),
        (One, RowCall::Settled, Is(true)),
        (One, RowCall::Undo(First), Token(1)),
        (
            One,
            RowCall::Page("0 decided / hopeful 0 0 1 / 1 0 / 0 0 / "),
            Is(true),
        ),
        (One, RowCall::Forget(First), Forgotten),
    ],
)];

/// Retracting the first of two decisions drops the lifts that assumed it.
const RETRACT: &[Part] = &[(
    1,
    &[
        (One, RowCall::Decide(First, F, true), Token(1)),
        (One, RowCall::Decide(Second, G, true), Token(2)),
        (One, RowCall::Order, Done),
        (One, RowCall::Commit, Added(3)),
        (One, RowCall::Verdict(0), Says(false, true)),
        (Two, RowCall::Retract(Third, F), Token(3)),
        (
            One,
            RowCall::Page("1 decided / select g 2 by 1 / 0 0 / 0 0 / "),
            Is(true),
        ),
        (One, RowCall::Settled, Is(false)),
        (One, RowCall::Order, Done),
        (One, RowCall::Commit, Added(2)),
        (One, RowCall::Verdict(0), Says(false, false)),
        (One, RowCall::Keep(Third), Kept),
        (
            One,
            RowCall::Retract(Third, F),
            NotRetracted(RetractFault::NotDecided),
        ),
        (One, RowCall::Keep(Second), Kept),
        (One, RowCall::Keep(First), Kept),
    ],
)];

/// A reset takes back both decisions as one change, and keeps the lift that assumed none. It is undone and redone.
const RESET: &[Part] = &[(
    1,
    &[
        (One, RowCall::Reset(First), NotReset(ResetFault::NotDecided)),
        (One, RowCall::Lift(0), Done),
        (One, RowCall::Decide(First, F, false), Token(1)),
        (One, RowCall::Commit, Added(1)),
        (Two, RowCall::Decide(Second, G, true), Token(2)),
        (One, RowCall::Order, Done),
        (One, RowCall::Commit, Added(3)),
        (One, RowCall::Verdict(0), Says(true, false)),
        (Two, RowCall::Reset(Third), Token(3)),
        (
            One,
            RowCall::Page("0 decided / hopeful 0 0 1 / 1 0 / 0 0 / "),
            Is(true),
        ),
        (One, RowCall::Undo(Third), Token(3)),
        (One, RowCall::Verdict(0), Says(true, false)),
        (One, RowCall::Redo(Third), Token(3)),
        (One, RowCall::Verdict(0), Says(false, false)),
        (One, RowCall::Keep(Third), Kept),
        (One, RowCall::Reset(Third), NotReset(ResetFault::NotDecided)),
        (One, RowCall::Keep(Second), Kept),
        (One, RowCall::Keep(First), Kept),
    ],
)];

/// A harvest comes late: its decision was retracted. Once it stands again, much later, the harvest is taken.
const COME_LATE: &[Part] = &[
    (
        1,
        &[
            (One, RowCall::Decide(First, F, false), Token(1)),
            (One, RowCall::Order, Done),
            (Two, RowCall::Retract(Second, F), Token(2)),
            (One, RowCall::Keep(Second), Kept),
            (One, RowCall::Keep(First), Kept),
            (
                One,
                RowCall::Commit,
                NotCommitted(CommitFault::Outdated { feature: F }),
            ),
        ],
    ),
    (
        100,
        &[
            (One, RowCall::Decide(First, F, false), AnyToken),
            (One, RowCall::Keep(First), Kept),
            (Two, RowCall::Retract(First, F), AnyToken),
            (One, RowCall::Keep(First), Kept),
        ],
    ),
    (
        1,
        &[
            (One, RowCall::Decide(First, F, false), Token(203)),
            (One, RowCall::Keep(First), Kept),
            (One, RowCall::Commit, Added(2)),
            (
                One,
                RowCall::Page(
                    "1 decided / exclude f 203 by 1 / hopeful 0 0 2 -f / dual 1 0 1 -f / 2 0 / 0 1 / ",
                ),
                Is(true),
            ),
        ],
    ),
];

/// A board's harvest is taken, and settles the page.
const TAKE_FROM_BOARD: &[Part] = &[(
    1,
    &[
        (One, RowCall::Seated, Done),
        (One, RowCall::Commit, Added(2)),
        (One, RowCall::Settled, Is(true)),
        (
            One,
            RowCall::Page("0 decided / hopeful 0 0 1 / dual 1 0 1 / 1 0 / 0 1 / "),
            Is(true),
        ),
    ],
)];

/// Harvests of another game and of another diagram come back.
const HAND_IN_OTHERS: &[Part] = &[(
    1,
    &[
        (One, RowCall::Other(Other::Game), Done),
        (One, RowCall::Commit, NotCommitted(CommitFault::OtherGame)),
        (One, RowCall::Sizes, Sizes(1, 3)),
        (One, RowCall::Other(Other::Diagram), Done),
        (One, RowCall::Commit, NotCommitted(CommitFault::OtherGame)),
        (One, RowCall::Sizes, Sizes(2, 4)),
    ],
)];

/// A feature is decided, and that undone and forgotten, as often as a desk can.
const TO_THE_LIMIT: &[Part] = &[
    (
        1_048_576,
        &[
            (One, RowCall::Decide(First, F, true), AnyToken),
            (One, RowCall::Undo(First), AnyToken),
            (One, RowCall::Forget(First), Forgotten),
        ],
    ),
    (
        1,
        &[(
            One,
            RowCall::Decide(First, F, true),
            NotDecided(DecideFault::TooManyChanges),
        )],
    ),
];

/// Runs on the family of most examples.
const RUNS: &[(&str, &[Part])] = &[
    ("a last token is spent", SPEND),
    ("an overtaken token is spent first", FORGET_FIRST),
    ("pages come back", TURN),
    ("a retraction drops what was assumed", RETRACT),
    ("a reset takes back all decisions", RESET),
    ("a harvest comes late", COME_LATE),
    ("a board's harvest is taken", TAKE_FROM_BOARD),
    ("harvests of others come back", HAND_IN_OTHERS),
    ("changes are limited", TO_THE_LIMIT),
];

#[test]
fn calls_give_what_they_should(rt: HostRuntime) {
    for (name, parts) in RUNS {
        carry_out_all(&rt, GAME, DIAGRAM, name, parts);
    }
    carry_out_all(&rt, b"0 0 0 0;", ALTERNATIVE, "alternatives", REFUSE);
}
