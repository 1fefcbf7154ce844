// The layout: the order of each loop, and what is written though it is empty.
ghost use Rattle.format.specs.Layout.{item_c, layout_c, Item as AItem, Layout as ALayout};

use codec::forms::{Flag, Items, Le, Les, Opt};
use codec::{Form, Section};

pub struct Item;

impl Form for Item {
    ghost Value = { AItem };

    ghost codec = { item_c };

    fn ends_at(s: Section, at: usize) -> usize {
        match s.case(at) {
            Some(t) if t < 2 => s.le_at(4, at + 1),
            _ => s.past(),
        }
    }
}

pub struct Layout;

impl Form for Layout {
    ghost Value = { ALayout };

    ghost codec = { layout_c };

    fn ends_at(s: Section, at: usize) -> usize {
        let order = Items::<Items<Item>>::ends_at(s, at);
        let forced = Items::<Items<Flag>>::ends_at(s, order);
        let columns = Items::<Les<4>>::ends_at(s, forced);
        let depth = Items::<Opt<Le<4>>>::ends_at(s, columns);
        s.les_at(4, depth)
    }
}
