use frp_file::File;
use frp_form::{FormStop, Reading, read};
use frp_lex::{LexStop, lex};
use std::alloc::Global;

/// What a text is read as.
pub fn read_text(
    alloc: Global,
    text: &str,
    one_sender: bool,
) -> Result<Result<File, FormStop>, LexStop> {
    let tokens = lex(alloc, text.as_bytes())?;
    let how = Reading { one_sender };
    Ok(read(alloc, tokens.as_slice(), text.len() as u64, how))
}
