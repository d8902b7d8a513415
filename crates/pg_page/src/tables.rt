//! Parts of tables of HTML.
use crate::sheet::Sheet;

/// What is listed in a table of its own.
pub trait Listed {
    const HEADING: &'static str;

    const COLUMNS: &'static [&'static str];

    fn put_rows(&self, sheet: &mut Sheet);
}

/// Adds a heading, and a table of what is listed, or that it is nothing.
pub fn put_table<T: Listed>(listed: &[T], sheet: &mut Sheet) {
    if is_none(T::HEADING, listed.is_empty(), sheet) {
        return;
    }
    put_head(T::COLUMNS, sheet);
    for one in listed {
        one.put_rows(sheet);
    }
    sheet.put("</table></div>\n");
}

/// Adds a heading, and that there is nothing below it where that is so.
pub fn is_none(heading: &str, is_none: bool, sheet: &mut Sheet) -> bool {
    sheet.put("<h2>");
    sheet.put(heading);
    sheet.put("</h2>\n");
    put_where(is_none, "<p>none</p>\n", sheet);
    is_none
}

/// Adds a text where that is so.
pub fn put_where(is_so: bool, text: &str, sheet: &mut Sheet) {
    if is_so {
        sheet.put(text);
    }
}

/// Begins a table with these columns.
fn put_head(columns: &[&str], sheet: &mut Sheet) {
    sheet.put("<div class=\"wide\"><table>\n<tr>");
    for column in columns {
        sheet.put("<th>");
        sheet.put(column);
        sheet.put("</th>");
    }
    sheet.put("</tr>\n");
}

/// Adds a cell with a text of others.
pub fn cell(text: &[u8], sheet: &mut Sheet) {
    sheet.put("<td>");
    sheet.show(text);
    sheet.put("</td>");
}

/// Adds a cell with a word of the program's own.
pub fn word_cell(word: &str, sheet: &mut Sheet) {
    cell(word.as_bytes(), sheet);
}

pub fn number_cell(number: u64, sheet: &mut Sheet) {
    sheet.put("<td>");
    sheet.number(number);
    sheet.put("</td>");
}

/// Adds a row of a name and a number.
pub fn pair(name: &str, number: u64, sheet: &mut Sheet) {
    sheet.put("<tr><th>");
    sheet.put(name);
    sheet.put("</th>");
    number_cell(number, sheet);
    sheet.put("</tr>\n");
}

/// Adds a row of a name and a word.
pub fn row(name: &str, word: &str, sheet: &mut Sheet) {
    sheet.put("<tr><th>");
    sheet.put(name);
    sheet.put("</th>");
    word_cell(word, sheet);
    sheet.put("</tr>\n");
}
