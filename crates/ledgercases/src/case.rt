// One case: a ledger on its own table, with the store and the rule of its queries.
use crate::answers::{Answered, Closed, Unread};
use crate::held::Held;
use crate::lines::Lines;
use crate::order::{Order, Query};
use kinds::Kind;
use ledger::{Amounts, Answer, Ledger, NewLog, open};
use links::Step;
use ranges::Range;
use rules::{Joined, Short, Spans};
use std::alloc::{AllocError, Global};
use stores::{Lists, Packed, Reading, Store, Window, list};

// What the queries of a case are asked with.
#[derive(Drop)]
struct Setting<K> {
    slots: Lists<K>,
    agreed: u32,
    spans: Vec<Range<u32>>,
    steps: Vec<Step>,
}

impl<K: Kind> Setting<K> {
    fn new(heap: Global) -> Result<Setting<K>, AllocError> {
        Ok(Setting {
            slots: Lists::new(heap),
            agreed: 1,
            spans: Vec::new(heap),
            steps: vec![in heap; Step::default(); 1023]?,
        })
    }

    // One more slot for each record.
    fn unpack(&mut self, bytes: &[u8]) -> Result<(), AllocError> {
        let packed: Packed<K> = Packed::new(bytes);
        for slot in 0..packed.slots() {
            match packed.read(slot) {
                Reading::Value(value) => self.slots.push(value, 1)?,
                Reading::Missing | Reading::Outside => self.slots.push(K::zero(), 0)?,
            }
        }
        Ok(())
    }
}

// A case under way: its ledger, and what its queries are asked with.
struct Session<'a, K> {
    ledger: Ledger,
    amounts: Amounts<'a, K>,
    setting: Setting<K>,
}

impl<K: Held> Session<'_, K> {
    // Asks a query, under the simplest rule that protects what is agreed.
    fn ask(&mut self, range: Range<u32>) -> Answer<K> {
        let ledger = &mut self.ledger;
        let amounts = &mut self.amounts;
        let agreed = self.setting.agreed;
        let store = self.setting.slots.plain();
        let short = Short::new(agreed);
        let spans = Spans::new(&self.setting.spans);
        let chain = self.setting.steps.as_mut_slice();
        // Stays: the three rules are three types, and each is to be asked by itself.
        if self.setting.spans.is_empty() {
            ledger.query(amounts, &store, &short, range, chain)
        } else if agreed == 1 {
            ledger.query(amounts, &store, &spans, range, chain)
        } else {
            ledger.query(amounts, &store, &Joined::new(short, spans), range, chain)
        }
    }

    // Asks a query as often as it says, and tells the last answer.
    fn tell(&mut self, query: Query, out: &mut Lines) -> Result<(), AllocError> {
        for _ in 1..query.count {
            let _ = self.ask(query.range);
        }
        let answer = self.ask(query.range);
        let counts = self.ledger.counts();
        let steps = self.setting.steps.as_slice();
        out.say(&Answered {
            answer,
            steps,
            counts,
        })
    }

    // Does what an order says. Kind and distances were taken before.
    fn obey(&mut self, order: &Order, out: &mut Lines) -> Result<(), AllocError> {
        let setting = &mut self.setting;
        match order {
            Order::Steps(count) => {
                setting.steps = vec![in out.heap(); Step::default(); usize::from(*count)]?
            }
            Order::Short(agreed) => setting.agreed = *agreed,
            Order::Listed(span) => setting.spans.push(*span)?,
            Order::Slot(slot) => match K::held(slot.numbers) {
                Some(value) => setting.slots.push(value, slot.mark)?,
                None => out.say(&Unread(slot))?,
            },
            Order::Packed(bytes) => setting.unpack(bytes)?,
            Order::Window { start, length } => {
                // Stays: `usize` has no `From<u32>`.
                let window = Window::new(setting.slots.plain(), *start as usize, *length as usize);
                setting.slots = list(out.heap(), &window)?;
            }
            Order::Query(query) => self.tell(*query, out)?,
            Order::Unread(line) => out.say(&Unread(line))?,
            Order::Kind(_) | Order::Distances(_) => {}
        }
        Ok(())
    }

    fn obey_all(&mut self, orders: &[Order], out: &mut Lines) -> Result<(), AllocError> {
        for order in orders {
            self.obey(order, out)?;
        }
        Ok(())
    }
}

// Stays: `closing` says whether the case has one line more, and has no value beside it.
// Runs a case from opening to closing its ledger; the closing counts have a line where that is asked for.
pub fn run<K: Held>(
    distances: u16,
    orders: &[Order],
    closing: bool,
    out: &mut Lines,
) -> Result<(), AllocError> {
    let setting = Setting::new(out.heap())?;
    let mut table = vec![in out.heap(); K::zero(); usize::from(distances)]?;
    let (ledger, amounts) = open(NewLog::begin(), table.as_mut_slice());
    let mut session = Session {
        ledger,
        amounts,
        setting,
    };
    let obeyed = session.obey_all(orders, out);
    let Session {
        ledger,
        amounts,
        setting: _,
    } = session;
    let counts = ledger.close();
    let _ = amounts.close();
    obeyed?;
    if closing {
        out.say(&Closed(counts))?;
    }
    Ok(())
}
