//! What header bytes are.

ghost use Rattle.std.specs.Prelude.{◌≡◌, [], Some, None};
ghost use Rattle.vortex_stream.specs.Header.{array_content, buffer_content, header_of, type_content};
ghost use Rattle.vortex_ipc_check.specs.WorkedHeaders.{array_header, buffer_header, type_header};

/// Which headers some bytes are, written by hand. It does nothing when the program runs.
pub fn headers_are_worked()
    ensures buffer { header_of (buffer_header 0 2 6)
        ≡ Some (record { content = buffer_content 6; body_size = 3 }) }
    ensures dtype { header_of type_header
        ≡ Some (record { content = type_content; body_size = 48 }) }
    ensures array { header_of array_header
        ≡ Some (record { content = array_content 258 []; body_size = 5 }) }
    ensures version { header_of (buffer_header 1 2 6) ≡ None }
    ensures no_kind { header_of (buffer_header 0 0 6) ≡ None }
    ensures other_kind { header_of (buffer_header 0 4 6) ≡ None }
{}
