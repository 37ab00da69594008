use crate::open_server::OpenServer;

/// A page server: an open one over lent memory, or a shut one, which holds none.
///
/// It is no `Option`, since a type argument cannot hold memory lent as `&mut` beside ghost fields.
#[derive(Drop)]
pub enum Server<'a> {
    Shut,
    Open(OpenServer<'a>),
}

pub mod serving;
