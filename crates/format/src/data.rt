// The data: the columns of each table.
ghost use Rattle.format.specs.Data.{column_c, table_data_c, values_c, Column as AColumn, TableData as ATableData, Values as AValues};

use codec::forms::{Items, Le, Opt};
use codec::{Form, Section};

pub struct Cells;

impl Form for Cells {
    ghost Value = { AValues };

    ghost codec = { values_c };

    fn ends_at(s: Section, at: usize) -> usize {
        match s.case(at) {
            Some(0) => s.bytes_at(s.les_at(4, at + 1)),
            Some(1) => s.le_at(1, s.les_at(8, at + 1)),
            Some(2) => s.le_at(1, s.les_at(16, at + 1)),
            Some(t) if t < 5 => s.les_at(4, at + 1),
            _ => s.past(),
        }
    }
}

pub struct Column;

impl Form for Column {
    ghost Value = { AColumn };

    ghost codec = { column_c };

    fn ends_at(s: Section, at: usize) -> usize {
        let values = Cells::ends_at(s, at);
        let validity = s.bytes_at(values);
        s.le_at(4, validity)
    }
}

pub struct TableData;

// The fields one after the other, written out, since each pass over them keeps other places.
impl Form for TableData {
    ghost Value = { ATableData };

    ghost codec = { table_data_c };

    fn ends_at(s: Section, at: usize) -> usize {
        let rows = s.le_at(4, at);
        let row = Opt::<Column>::ends_at(s, rows);
        let segment = Opt::<Column>::ends_at(s, row);
        let refs = Items::<(Le<4>, Opt<Column>)>::ends_at(s, segment);
        Items::<Opt<Column>>::ends_at(s, refs)
    }
}
