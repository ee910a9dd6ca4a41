// Work for a program that comes in files.

use cc_filing::buffers;
use cc_task::{Kind, Task};
use cc_tasks::{
    perform_and_explain_stages_of_texts, perform_stages_of_texts, perform_texts_into,
    read_or_refuse,
};
use std::alloc::AllocError;
use std::io::{self, Input, Print, Write};

/// Performs a task for the program in these files. The result is the status. The only error is that memory ran out before it
/// began.
pub fn start_texts<R: AllocGlobal + Input + Print, E: Write + Drop>(
    rt: &R,
    files: &HostRuntime,
    task: Task,
    names: &[String],
    is_quiet: bool,
    errors: E,
) -> Result<u8, AllocError> {
    let Ok((mut writer, mut told)) = buffers(rt.alloc(), io::writer(rt), errors, is_quiet) else {
        drop(task);
        return Err(AllocError);
    };
    let texts = match read_or_refuse(rt, files, names, &mut writer, &mut told) {
        Ok(Some(texts)) => texts,
        Ok(None) => {
            drop(task);
            return Ok(1);
        }
        Err(error) => {
            drop(task);
            return Err(error);
        }
    };
    drop(writer);
    let (done, out) = perform_texts_into(rt, task, texts.as_slice(), io::writer(rt), &mut told)?;
    drop(out);
    Ok(done.status)
}

/// Shows each stage of the compilation of the program in these files. The result is the status. The only error is that memory
/// ran out before this began.
pub fn start_stages_of_texts<R: AllocGlobal + Input + Print, E: Write + Drop>(
    rt: &R,
    files: &HostRuntime,
    kind: Kind,
    function: Option<&[u8]>,
    names: &[String],
    is_quiet: bool,
    errors: E,
) -> Result<u8, AllocError> {
    let (mut writer, mut told) = buffers(rt.alloc(), io::writer(rt), errors, is_quiet)?;
    let Some(texts) = read_or_refuse(rt, files, names, &mut writer, &mut told)? else {
        return Ok(1);
    };
    let texts = texts.as_slice();
    if is_quiet {
        return Ok(perform_stages_of_texts(rt, kind, function, texts, &mut writer));
    }
    Ok(perform_and_explain_stages_of_texts(rt, kind, function, texts, &mut writer, &mut told))
}
