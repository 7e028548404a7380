//! Lists the sheet in the file sheet.gps of the current folder, checks its rows, and saves it again to see that
//! nothing is lost.
#![tactic(auto)]

use anyhow::anyhow;
use checker::{Line, check};
use sheet::{Draft, MAX_ROWS, Row, load};
use std::fs;
use words::{Escaped, HeadWords, RowLine};

const FILE: &str = "sheet.gps";

fn print_rows(rt: &HostRuntime, rows: &[Row], lines: &[Line]) -> anyhow::Result<()> {
    for (number, row) in rows.iter().enumerate() {
        let typing = lines.get(number).and_then(|line| line.typing);
        rt.println(RowLine {
            number,
            row: *row,
            typing,
        })?;
    }
    Ok(())
}

fn save_again(rt: &HostRuntime, file: &[u8], note: &[u8], draft: &Draft) -> anyhow::Result<()> {
    let mut copy = vec![in rt.alloc(); 0u8; file.len()]?;
    match draft.save(note, copy.as_mut_slice()) {
        Ok(n) if copy.as_slice() == file => println!(rt; "saved again: {n} bytes, the same")?,
        Ok(n) => println!(rt; "saved again: {n} bytes, not the same")?,
        Err(refusal) => println!(rt; "not saved again: {refusal}")?,
    }
    Ok(())
}

/// Lists the rows with the types that check finds, and tells what check says.
fn list_rows(rt: &HostRuntime, draft: Draft) -> anyhow::Result<Draft> {
    let room = checker::Room::new(rt.alloc(), draft.rows().len())?;
    match check(draft, room) {
        Ok(sheet) => {
            print_rows(rt, sheet.rows(), sheet.lines())?;
            println!(rt; "every row keeps the rules")?;
            let (draft, _) = sheet.into_parts();
            Ok(draft)
        }
        Err(refused) => {
            print_rows(rt, refused.draft.rows(), refused.room.lines())?;
            let refusal = refused.refusal;
            println!(rt;
                "row {}: refused {}: {refusal}",
                refused.row,
                u16::from(refusal)
            )?;
            Ok(refused.draft)
        }
    }
}

fn run(rt: &HostRuntime) -> anyhow::Result<()> {
    let file = fs::read(rt, FILE).map_err(|_| anyhow!(
        "the file sheet.gps of this folder cannot be read"
    ))?;
    let room = sheet::Room::new(rt.alloc(), MAX_ROWS)?;
    match load(file.as_slice(), room) {
        Ok((draft, note)) => {
            println!(rt; "note {}", Escaped(note))?;
            rt.println(HeadWords(draft.head()))?;
            let draft = list_rows(rt, draft)?;
            save_again(rt, file.as_slice(), note, &draft)
        }
        Err(refused) => {
            println!(rt; "refused {}: {refused}", u16::from(refused.refusal))?;
            Ok(())
        }
    }
}

fn main(rt: HostRuntime) -> anyhow::Result<()> {
    run(&rt)
}
