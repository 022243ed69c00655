// The block file that a receiver sees of a request. Assumes nothing.
ghost use Rattle.sender.specs.Files.{Files};

use crate::failure::Failure;
use crate::image::image;
use crate::request::Request;
use crate::sending::send;
use std::alloc::Global;

// The file, or the first refusal.
pub fn file_of(heap: Global, request: &Request) -> Result<Vec<u8>, Failure>
    ensures { Files request.now result }
{
    let sending = send(heap, request)?;
    Ok(image(heap, request, sending.sent.as_slice())?)
}
