// The book of a service.
//
// `playing` plays the calls of two clients against the model, `script` has twenty calls, and `failing` devices that fail at
// each call, and are opened again after crashes.

mod failing;
mod playing;
mod script;
