// Judgements and refusals on examples.
use crate::{Finding, judge, refusal};
use links::{Boundary, Hung, Links, Origin, Sign, Step};
use ranges::Range;
use rules::{Joined, Rule, Short, Spans};

const BLANK: Step = Step {
    low: 9,
    high: 9,
    sign: Sign::Plus,
    origin: Origin::Released,
};

fn ends(low: u32, high: u32) -> Option<Range<Boundary>> {
    Some(Range {
        low: Boundary::try_from(low).ok()?,
        high: Boundary::try_from(high).ok()?,
    })
}

fn join(links: &mut Links, low: u32, high: u32) -> Option<Hung> {
    links.join(ends(low, high)?)
}

fn judged<R: Rule>(links: &Links, rule: &R, low: u32, high: u32) -> Option<Finding> {
    Some(judge(links, rule, ends(low, high)?))
}

fn refused(
    links: &Links,
    low: u32,
    high: u32,
    pair: Range<u16>,
    table: &mut [Step],
) -> Option<usize> {
    refusal(links, ends(low, high)?, pair, table)
}

#[test]
fn short_range_by_subtraction(rt: HostRuntime) {
    let rule = Short::new(3);
    let mut links = Links::new();
    let _ = join(&mut links, 0, 4);
    let _ = join(&mut links, 1, 5);
    let known = judged(&links, &rule, 4, 0);
    let free = judged(&links, &rule, 4, 8);
    let withheld = judged(&links, &rule, 0, 5);
    let mut table = [BLANK; 1023];
    let len = refused(&links, 0, 5, Range { low: 0, high: 1 }, &mut table);
    links.close();
    assert_eq!(rt; known, Some(Finding::Linked));
    assert_eq!(rt; free, Some(Finding::Free));
    assert_eq!(rt;
        withheld,
        Some(Finding::Withheld(Range { low: 0, high: 1 }))
    );
    assert_eq!(rt; len, Some(2));
    let up = Step {
        low: 0,
        high: 5,
        sign: Sign::Plus,
        origin: Origin::New,
    };
    let down = Step {
        low: 1,
        high: 5,
        sign: Sign::Minus,
        origin: Origin::Released,
    };
    assert_eq!(rt; table[0], up);
    assert_eq!(rt; table[1], down);
    assert_eq!(rt; table[2], BLANK);
}

#[test]
fn listed_range_behind_a_release(rt: HostRuntime) {
    let spans = [Range { low: 2, high: 4 }];
    let rule = Joined::new(Short::new(1), Spans::new(&spans));
    let mut links = Links::new();
    let first = judged(&links, &rule, 0, 2);
    let _ = join(&mut links, 0, 2);
    let second = judged(&links, &rule, 0, 4);
    let mut table = [BLANK; 1023];
    let len = refused(&links, 0, 4, Range { low: 2, high: 4 }, &mut table);
    links.close();
    assert_eq!(rt; first, Some(Finding::Free));
    assert_eq!(rt; second, Some(Finding::Withheld(Range { low: 2, high: 4 })));
    assert_eq!(rt; len, Some(2));
    assert_eq!(rt; table[0].sign, Sign::Minus);
    assert_eq!(rt; table[1].origin, Origin::New);
}

#[test]
fn nothing_to_explain(rt: HostRuntime) {
    let mut links = Links::new();
    let _ = join(&mut links, 0, 2);
    let mut table = [BLANK; 1023];
    let inside = refused(&links, 0, 4, Range { low: 0, high: 2 }, &mut table);
    let linked = refused(&links, 0, 2, Range { low: 0, high: 2 }, &mut table);
    let beyond = refused(&links, 0, 4, Range { low: 0, high: 1024 }, &mut table);
    let narrow = refused(&links, 0, 4, Range { low: 2, high: 4 }, &mut table[0..1022]);
    links.close();
    assert_eq!(rt; inside, None);
    assert_eq!(rt; linked, None);
    assert_eq!(rt; beyond, None);
    assert_eq!(rt; narrow, None);
    assert_eq!(rt; table[0], BLANK);
}
