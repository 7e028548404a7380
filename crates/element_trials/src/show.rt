//! Values printed as lines of the trials' output.
use element::Element;
use print::{print_matrix, print_scalar, print_vector};

/// Prints a name and the text that stands in the first bytes of a buffer.
pub(crate) fn show_text(
    rt: &HostRuntime,
    name: &str,
    buffer: &[u8],
    end: Option<usize>,
) -> anyhow::Result<()> {
    match end {
        Some(end) if end <= buffer.len() => {
            let text = std::str::from_utf8(&buffer[0..end])?;
            println!(rt; "{name}: {text}")?;
        }
        _ => println!(rt; "{name}: does not fit")?,
    }
    Ok(())
}

pub(crate) fn show_scalar<E: Element>(
    rt: &HostRuntime,
    name: &str,
    value: E,
) -> anyhow::Result<()> {
    let mut buffer = [0u8; 64];
    let end = print_scalar(value, &mut buffer, 0);
    show_text(rt, name, &buffer, end)
}

/// Shows the n cells from `at` on, or an empty vector where the table ends before.
pub(crate) fn show_vector<E: Element>(
    rt: &HostRuntime,
    name: &str,
    table: &[E],
    at: usize,
    n: usize,
) -> anyhow::Result<()> {
    let mut buffer = [0u8; 64];
    if at <= table.len() && n <= table.len() - at && n < 100 {
        let end = print_vector(table, at, n, &mut buffer, 0);
        return show_text(rt, name, &buffer, end);
    }
    Ok(())
}

/// Shows the r × s matrix from `at` on.
pub(crate) fn show_matrix<E: Element>(
    rt: &HostRuntime,
    name: &str,
    table: &[E],
    at: usize,
    r: usize,
    s: usize,
) -> anyhow::Result<()> {
    let mut buffer = [0u8; 64];
    if at <= table.len() && r < 100 && s < 100 && r * s <= table.len() - at {
        let end = print_matrix(table, at, r, s, &mut buffer, 0);
        return show_text(rt, name, &buffer, end);
    }
    Ok(())
}
