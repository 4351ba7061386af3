use frp_base::Boxed;
use frp_file::File;
use frp_type::Typed;

/// A text that has a program: its file, as it is written, and what the file means.
#[derive(Drop)]
pub struct Understood {
    pub file: File,
    pub typed: Boxed<Typed>,
}
